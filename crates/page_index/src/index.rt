//! The index.
ghost use Rattle.std.specs.Prelude.{◌≡◌, ◌⊎◌, ◌≤◌, [], Contains, IfOk, IfSome, None, OnErr, OnOk, Some, true, length, option_copied, option_map};
ghost use Rattle.sp_base.specs.Texts.{Segments};
ghost use Rattle.page_index.specs.Effects.{ForgetsCovered, ForgetsPage, IsBare, SetsPage, SetsStamp, PagesStayOrFall};
ghost use Rattle.page_index.specs.Held.{after_hit, fresh_note, has_room, weight_of};
ghost use Rattle.page_index.specs.Held as held;
ghost use Rattle.page_index.specs.Limits.{longest_kept, most_bytes, most_notes};
ghost use Rattle.page_index.specs.Notes.{bytes_noted, head_noted, held_stamp, known_page, page_noted, pages_noted, stamp_noted, stamps_noted};

use crate::generation::Generation;
use crate::known_page::KnownPage;
use crate::page_note::PageNote;
use crate::place::place_of;
use crate::stamps::Stamps;
use cache_files::HeadNote;
use cover_rules::{Invalidation, PageKey, Stamp, touched};
use sp_base::{ByteBuf, Mem, Path};
use std::alloc::Global;
use std::mem::swap;

/// What is known of pages and of folders' stamps: notes of heads or of their absence, of bodies, and of stamps or of their absence. There are at
/// most 65,536 notes of pages and as many of stamps, and 64 MiB of bodies, none of more than 1 MiB. Notes lie in two generations: where the younger
/// is full, the older one falls, so that what is asked for stays.
#[derive(Drop)]
pub struct PageIndex {
    young: Generation,
    older: Generation,
    stamps: Stamps,
}

impl PageIndex {
    /// No notes.
    pub fn new(alloc: Global) -> PageIndex
        ensures { IsBare result }
    {
        PageIndex {
            young: Generation::new(alloc),
            older: Generation::new(alloc),
            stamps: Stamps::new(alloc),
        }
    }

    /// How many pages are noted.
    pub fn pages(&self) -> usize
        ensures value { result ≡ pages_noted self.now }
        ensures most { pages_noted self.now ≤ most_notes }
    {
        self.young.len() + self.older.len()
    }

    /// How many stamps are noted.
    pub fn stamps(&self) -> usize
        ensures value { result ≡ stamps_noted self.now }
        ensures most { stamps_noted self.now ≤ most_notes }
    {
        self.stamps.len()
    }

    /// At least as many bytes as the bodies have.
    pub fn bytes(&self) -> usize
        ensures kept { bytes_noted self.now ≤ result }
        ensures most { result ≤ most_bytes }
    {
        self.young.bytes() + self.older.bytes()
    }

    /// What is noted of the head of a key's page: the head, or that there is none.
    pub fn head(&self, key: &PageKey) -> Option<Option<&HeadNote>>
        ensures { option_map option_copied result ≡ head_noted self.now key.now }
    {
        let place = place_of(key);
        match self.young.get(place, key) {
            Some(note) => Some(note.head()),
            None => match self.older.get(place, key) {
                Some(note) => Some(note.head()),
                None => None,
            },
        }
    }

    /// What is noted of a folder's stamp: the stamp, or that there is none. The folder is mangled.
    pub fn stat(&self, folder: &Path) -> Option<Option<Stamp>>
        ensures { result ≡ stamp_noted self.now folder.now }
    {
        self.stamps.get(folder)
    }

    /// The page of a key, where its head and its body are noted. The body is shared and not copied, and so is the head of its answer.
    pub fn page(&mut self, alloc: Global, key: &PageKey) -> Mem<Option<KnownPage>>
        ensures ok { IfOk result (λ page. page ≡ known_page self.old key.now) }
        ensures same { self.new ≡ self.old }
        ensures short { IfOk result (λ page. IfSome page (λ page. length page.answer.body ≤ longest_kept)) }
    {
        let place = place_of(key);
        if self.young.get(place, key).is_some() {
            self.young.page(alloc, place, key)
        } else {
            self.older.page(alloc, place, key)
        }
    }

    /// Notes the head of a key's page, or that there is none, in place of what was noted of that page.
    pub fn note(&mut self, alloc: Global, key: &PageKey, head: Option<HeadNote>) -> Mem<()>
        ensures ok { OnOk result (SetsPage key.now 0 (Some (fresh_note key.now head)) self.old self.new) }
        ensures err { OnErr result (SetsPage key.now 0 None self.old self.new) }
    {
        drop(self.take(key));
        let note = PageNote::fresh(key.duplicate(alloc)?, head);
        self.settle(place_of(key), note)
    }

    /// Counts a hit of a page, which read this body. The third since the page was noted keeps a share of it, where it isn't too long.
    pub fn hit(&mut self, alloc: Global, key: &PageKey, body: &mut ByteBuf) -> Mem<()>
        ensures ok { OnOk result (SetsPage key.now longest_kept (option_map (after_hit body.old) (page_noted self.old key.now)) self.old self.new) }
        ensures err { OnErr result (SetsPage key.now longest_kept None self.old self.new) }
        ensures same { body.new ≡ body.old }
    {
        match self.take(key) {
            Some(note) => {
                let counted = note.counted(alloc, body)?;
                self.settle(place_of(key), counted)
            }
            None => Ok(()),
        }
    }

    /// Lets the note of a page that is asked for stay longer than those that aren't.
    pub fn note_asked(&mut self, key: &PageKey) -> Mem<()>
        ensures ok { OnOk result (SetsPage key.now longest_kept (page_noted self.old key.now) self.old self.new) }
        ensures err { OnErr result (SetsPage key.now longest_kept None self.old self.new) }
    {
        let place = place_of(key);
        if self.young.get(place, key).is_some() {
            return Ok(());
        }
        match self.older.take(place, key) {
            Some(note) => self.settle(place, note),
            None => Ok(()),
        }
    }

    /// Notes a folder's stamp, or that there is none, in place of what was noted. The folder is mangled.
    pub fn note_stat(&mut self, alloc: Global, folder: &Path, stamp: Option<Stamp>) -> Mem<()>
        ensures ok { OnOk result (SetsStamp folder.now (Some stamp) self.old self.new) }
        ensures err { OnErr result (SetsStamp folder.now None self.old self.new) }
    {
        self.stamps.forget(folder);
        self.stamps.put(folder.duplicate(alloc)?, stamp)
    }

    /// Forgets a page. It takes no memory.
    pub fn forget(&mut self, key: &PageKey)
        ensures { ForgetsPage key.now self.old self.new }
    {
        drop(self.take(key));
    }

    /// Forgets all. It takes no memory.
    pub fn forget_all(&mut self)
        ensures { IsBare self.new }
    {
        self.young.clear();
        self.older.clear();
        self.stamps.clear();
    }

    /// Forgets each page that an invalidation deletes, and the stamp of each folder that it touches. Where there is no memory for the list of
    /// these folders, each stamp is forgotten.
    pub fn forget_covered(&mut self, alloc: Global, level: usize, inv: &Invalidation)
        ensures { ForgetsCovered level inv.now self.old self.new }
    {
        self.young.forget_deleted(level, inv);
        self.older.forget_deleted(level, inv);
        match touched(alloc, level, inv) {
            Ok(folders) => forget_stamps(&mut self.stamps, folders.as_slice()),
            Err(_) => self.stamps.clear(),
        }
    }
}

impl PageIndex {
    // Takes out what is noted of a page.
    fn take(&mut self, key: &PageKey) -> Option<PageNote>
        ensures value { result ≡ page_noted self.old key.now }
        ensures key { IfSome result (λ note. note.key ≡ key.now) }
        ensures forgets { ForgetsPage key.now self.old self.new }
        ensures fewer { length self.new.young.notes ≤ length self.old.young.notes }
        ensures bytes { self.new.young.bytes ≡ self.old.young.bytes }
    {
        let place = place_of(key);
        let young = self.young.take(place, key);
        let older = self.older.take(place, key);
        young.or(older)
    }

    // Puts the note of a page that isn't noted into the younger generation. Where that is full, the older one falls.
    fn settle(&mut self, place: u64, note: PageNote) -> Mem<()>
        requires place { place ≡ held.place_of_key note.key }
        requires absent { page_noted self.old note.key ≡ None }
        ensures ok { OnOk result (SetsPage note.key (weight_of note) (Some note) self.old self.new) }
        ensures err { OnErr result (SetsPage note.key (weight_of note) None self.old self.new) }
        ensures weight { weight_of note ≤ longest_kept }
    {
        self.make_room(note.weight());
        self.young.put(place, note)?;
        self.older.vacate(place);
        Ok(())
    }

    // Makes room in the younger generation, with so many bytes of a body. Where it is full, the older one falls.
    fn make_room(&mut self, bytes: usize)
        requires { bytes ≤ longest_kept }
        ensures room { has_room self.new.young bytes ≡ true }
        ensures kept { PagesStayOrFall bytes self.old self.new }
        ensures stamps { self.new.stamps ≡ self.old.stamps }
    {
        if self.young.has_room(bytes) {
            return;
        }
        self.age();
    }

    // The older generation falls, and the younger one is the older.
    fn age(&mut self)
        ensures young { self.new.young.notes ≡ [] }
        ensures bytes { self.new.young.bytes ≡ 0 }
        ensures older { self.new.older ≡ self.old.young }
        ensures stamps { self.new.stamps ≡ self.old.stamps }
    {
        swap(&mut self.young, &mut self.older);
        self.young.clear();
    }
}

// Forgets the stamps of folders.
fn forget_stamps(stamps: &mut Stamps, folders: &[Path])
    ensures gone { (folder : Segments) → Contains folders.now folder → held_stamp stamps.new folder ≡ None }
    ensures fewer { (folder : Segments) → (held_stamp stamps.new folder ≡ held_stamp stamps.old folder) ⊎ (held_stamp stamps.new folder ≡ None) }
{
    for folder in folders {
        stamps.forget(folder);
    }
}
