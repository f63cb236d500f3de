//! A generation of notes of pages.
ghost use Rattle.std.specs.Prelude.{◌≡◌, ◌≢◌, ◌≤◌, ℕ, [], IfOk, IfSome, IsTrue, None, OnOk, OnErr, Some, cond, false, length, option_and_then, option_copied};
ghost use Rattle.cover_rules.specs.Coverage.{deletes};
ghost use Rattle.cover_rules.specs.declared.page.PageKey.{PageKey};
ghost use Rattle.page_index.specs.Held.{bytes_kept, has_room, held_note, same_key, weight_of};
ghost use Rattle.page_index.specs.Limits.{longest_kept, most_young, most_young_bytes};
ghost use Rattle.page_index.specs.Notes.{page_from};

use crate::known_page::KnownPage;
use crate::page_note::PageNote;
use cover_rules::{Invalidation, PageKey, StatRule, covers};
use sp_base::Mem;
use std::alloc::Global;
use std::collections::BTreeMap;
use std::marker::Model;

// The most notes of a generation, and the most bytes of bodies in it.
const MOST_YOUNG: usize = 32_768;

const MOST_YOUNG_BYTES: usize = 33_554_432;

/// Notes of pages at the places that the hashes of their keys name. Two keys of one hash have one place, where the later note stands.
#[derive(Drop)]
pub(crate) struct Generation {
    notes: BTreeMap<u64, PageNote>,
    // As many bytes as the bodies of these have, or more where some were forgotten.
    bytes: usize,
}

impl Model for Generation {
    ghost use Rattle.page_index.specs.Held.{HeldNotes, IsBounded};

    ghost Value = { HeldNotes };

    ghost view = { λ g. record { notes = g.notes.entries; bytes = g.bytes } };

    ghost invariant = { λ g. IsBounded (record { notes = g.notes.entries; bytes = g.bytes }) };
}

impl Generation {
    pub(crate) fn new(alloc: Global) -> Generation
        ensures { result.notes ≡ [] }
    {
        Generation {
            notes: BTreeMap::new(alloc),
            bytes: 0,
        }
    }

    /// How many notes there are.
    pub(crate) fn len(&self) -> usize
        ensures value { result ≡ length self.now.notes }
        ensures few { result ≤ most_young }
    {
        self.notes.len()
    }

    /// At least as many bytes as the bodies have.
    pub(crate) fn bytes(&self) -> usize
        ensures kept { bytes_kept self.now.notes ≤ result }
        ensures small { result ≤ most_young_bytes }
    {
        self.bytes
    }

    pub(crate) fn has_room(&self, bytes: usize) -> bool
        requires { bytes ≤ most_young_bytes }
        ensures { result ≡ has_room self.now bytes }
    {
        self.notes.len() < MOST_YOUNG && bytes <= MOST_YOUNG_BYTES - self.bytes
    }

    /// The note at a place, where it is of the key.
    pub(crate) fn get(&self, place: u64, key: &PageKey) -> Option<&PageNote>
        ensures { option_copied result ≡ held_note self.now place key.now }
    {
        let Some(note) = self.notes.get(&place) else {
            return None;
        };
        if note.is_of(key) { Some(note) } else { None }
    }

    /// The page of the note at a place, where it is of the key.
    pub(crate) fn page(
        &mut self,
        alloc: Global,
        place: u64,
        key: &PageKey,
    ) -> Mem<Option<KnownPage>>
        ensures ok { IfOk result (λ page. page ≡ option_and_then page_from (held_note self.old place key.now)) }
        ensures short { IfOk result (λ page. IfSome page (λ page. length page.answer.body ≤ longest_kept)) }
        ensures same { self.new ≡ self.old }
    {
        let Some(note) = self.notes.get_mut(&place) else {
            return Ok(None);
        };
        note.page_of(alloc, key)
    }

    /// Puts a note at a place.
    pub(crate) fn put(&mut self, place: u64, note: PageNote) -> Mem<()>
        requires { IsTrue (has_room self.old (weight_of note)) }
        ensures here { OnOk result (held_note self.new place note.key ≡ Some note) }
        ensures displaced { OnOk result ((other : PageKey) → same_key note.key other ≡ false → held_note self.new place other ≡ None) }
        ensures beside { OnOk result ((at : ℕ) (other : PageKey) → at ≢ place → held_note self.new at other ≡ held_note self.old at other) }
        ensures err { OnErr result (self.new.notes ≡ self.old.notes) }
    {
        let bytes = note.weight();
        self.notes.insert(place, note)?;
        self.bytes += bytes;
        Ok(())
    }

    /// Takes out the note at a place, where it is of the key.
    pub(crate) fn take(&mut self, place: u64, key: &PageKey) -> Option<PageNote>
        ensures value { result ≡ held_note self.old place key.now }
        ensures key { IfSome result (λ note. note.key ≡ key.now) }
        ensures gone { held_note self.new place key.now ≡ None }
        ensures fewer { length self.new.notes ≤ length self.old.notes }
        ensures bytes { self.new.bytes ≡ self.old.bytes }
        ensures others { (at : ℕ) (other : PageKey) → same_key key.now other ≡ false → held_note self.new at other ≡ held_note self.old at other }
    {
        if self.get(place, key).is_none() {
            return None;
        }
        let taken = self.notes.remove(&place);
        taken
    }

    /// Takes out what stands at a place.
    pub(crate) fn vacate(&mut self, place: u64)
        ensures gone { (other : PageKey) → held_note self.new place other ≡ None }
        ensures beside { (at : ℕ) (other : PageKey) → at ≢ place → held_note self.new at other ≡ held_note self.old at other }
    {
        drop(self.notes.remove(&place));
    }

    /// Takes out the notes of pages that an invalidation deletes.
    pub(crate) fn forget_deleted(&mut self, level: usize, inv: &Invalidation)
        ensures { (at : ℕ) (key : PageKey) → held_note self.new at key ≡ cond (deletes inv.now key) None (held_note self.old at key) }
    {
        self.notes.retain(|_place, note| !covers(StatRule { level, auto: false }, inv, &note.key));
    }

    pub(crate) fn clear(&mut self)
        ensures notes { self.new.notes ≡ [] }
        ensures bytes { self.new.bytes ≡ 0 }
    {
        self.notes.clear();
        self.bytes = 0;
    }
}
