//! What a step brings about.
ghost use Rattle.std.specs.Prelude.{◌≡◌, ◌++◌, ◌∷◌, [], IfOk, OnOk};
ghost use Rattle.run_events.specs.declared.note.Note.TheVariants.{Idle as idle_note};
ghost use Rattle.run_events.specs.Events.{condition_notes};
ghost use Rattle.front.specs.Caches.{under_both, under_nothing};

use crate::answered::not_out_of_memory;
use run_events::{Conditions, Note, NoteList};
use sp_base::Mem;
use std::alloc::Global;

/// The notes of a step but for those that name what it ran under, and that.
#[derive(Drop)]
pub(crate) struct Effect {
    pub(crate) notes: Vec<Note>,
    pub(crate) conditions: Conditions,
}

impl Effect {
    /// No note.
    pub(crate) fn nothing(alloc: Global) -> Effect
        ensures notes { result.notes.items ≡ [] }
        ensures conditions { result.conditions ≡ under_nothing }
    {
        Effect {
            notes: Vec::new(alloc),
            conditions: not_out_of_memory(false),
        }
    }

    /// One note.
    pub(crate) fn one(alloc: Global, note: Note, conditions: Conditions) -> Mem<Effect>
        ensures notes { IfOk result (λ effect. effect.notes.items ≡ note ∷ []) }
        ensures conditions { IfOk result (λ effect. effect.conditions ≡ conditions) }
    {
        let mut notes = Vec::new(alloc);
        notes.push(note)?;
        Ok(Effect { notes, conditions })
    }

    /// The note that nothing was done.
    pub(crate) fn idle(alloc: Global) -> Mem<Effect>
        ensures notes { IfOk result (λ effect. effect.notes.items ≡ idle_note ∷ []) }
        ensures conditions { IfOk result (λ effect. effect.conditions ≡ under_nothing) }
    {
        Effect::one(alloc, Note::Idle, not_out_of_memory(false))
    }

    /// A further note, and what its call ran under.
    pub(crate) fn push(&mut self, note: Note, conditions: Conditions) -> Mem<()>
        ensures notes { OnOk result (self.new.notes.items ≡ self.old.notes.items ++ note ∷ []) }
        ensures conditions { OnOk result (self.new.conditions ≡ under_both self.old.conditions conditions) }
    {
        self.notes.push(note)?;
        self.conditions = both(self.conditions, conditions);
        Ok(())
    }

    /// The same with a note before the others, and what its call ran under.
    pub(crate) fn preceded_by(
        self,
        alloc: Global,
        first: Note,
        conditions: Conditions,
    ) -> Mem<Effect>
        ensures notes { IfOk result (λ effect. effect.notes.items ≡ first ∷ self.notes.items) }
        ensures conditions { IfOk result (λ effect. effect.conditions ≡ under_both conditions self.conditions) }
    {
        let Effect {
            notes,
            conditions: later,
        } = self;
        let mut rest = notes;
        let mut all = Vec::new(alloc);
        all.push(first)?;
        all.append(&mut rest)?;
        Ok(Effect {
            notes: all,
            conditions: both(conditions, later),
        })
    }

    /// All notes: the last say what the step ran under.
    pub(crate) fn into_notes(self) -> Mem<NoteList>
        ensures { IfOk result (λ notes. notes ≡ self.notes.items ++ condition_notes self.conditions) }
    {
        let Effect { notes, conditions } = self;
        let mut all = notes;
        if conditions.disk_failed {
            all.push(Note::Hurt)?;
        }
        if conditions.out_of_memory {
            all.push(Note::OutOfMemory)?;
        }
        Ok(NoteList::from(all))
    }
}

fn both(a: Conditions, b: Conditions) -> Conditions
    ensures { result ≡ under_both a b }
{
    Conditions {
        disk_failed: a.disk_failed || b.disk_failed,
        out_of_memory: a.out_of_memory || b.out_of_memory,
    }
}
