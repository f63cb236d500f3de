//! Counts what happens in events, and writes the counts.
ghost use Rattle.std.specs.Prelude.{◌≡◌, ◌+◌, ◌++◌, ◌∷◌, [], IfOk, OnOk};
ghost use Rattle.sling_dispatch.specs.Summaries.{counts, counts_of, counts_text, plus, row, CountsEvent};

use run_events::Note;
use sp_base::{Mem, NoMemory};
use std::alloc::Global;

/// How many events came, and how many notes of each kind.
#[derive(Drop)]
pub struct Counts {
    pub events: u64,
    pub asks: u64,
    pub hits: u64,
    pub kept: u64,
    pub passed: u64,
    pub unkept: u64,
    pub lost: u64,
    pub flushes: u64,
    pub done: u64,
    pub failed: u64,
    /// How many bytes were sent.
    pub sent: u64,
    pub disk_failed: u64,
    pub out_of_memory: u64,
}

// A count that has no room for more gives up as memory does.
fn add(count: &mut u64, more: u64) -> Mem<()>
    ensures { OnOk result (count.new ≡ count.old + more) }
{
    let Some(sum) = count.checked_add(more) else {
        return Err(NoMemory);
    };
    *count = sum;
    Ok(())
}

impl Counts {
    /// No event came yet.
    pub fn new() -> Counts
        ensures { result ≡ counts_of [] }
    {
        Counts {
            events: 0,
            asks: 0,
            hits: 0,
            kept: 0,
            passed: 0,
            unkept: 0,
            lost: 0,
            flushes: 0,
            done: 0,
            failed: 0,
            sent: 0,
            disk_failed: 0,
            out_of_memory: 0,
        }
    }

    /// An event came, with these notes.
    pub fn count(&mut self, notes: &[Note]) -> Mem<()>
        ensures added { OnOk result (self.new ≡ plus self.old (counts 1 notes.now)) }
        ensures counted { OnOk result (CountsEvent notes.now self.old self.new) }
    {
        add(&mut self.events, 1)?;
        for note in notes {
            self.count_note(note)?;
        }
        Ok(())
    }

    fn count_note(&mut self, note: &Note) -> Mem<()>
        ensures { OnOk result (self.new ≡ plus self.old (counts 0 (note.now ∷ []))) }
    {
        match note {
            Note::Ask(_, _, _) => add(&mut self.asks, 1),
            Note::Hit(_, _) => add(&mut self.hits, 1),
            Note::Kept(_, _) => add(&mut self.kept, 1),
            Note::Passed(_) => add(&mut self.passed, 1),
            Note::Unkept(_) => add(&mut self.unkept, 1),
            Note::Lost(_) => add(&mut self.lost, 1),
            Note::Flush(_, _, _) => add(&mut self.flushes, 1),
            Note::Done(_) => add(&mut self.done, 1),
            Note::Failed(_, _) => add(&mut self.failed, 1),
            Note::Sent(_, bytes) => add(&mut self.sent, bytes.size()?),
            Note::Hurt => add(&mut self.disk_failed, 1),
            Note::OutOfMemory => add(&mut self.out_of_memory, 1),
            _ => Ok(()),
        }
    }

    /// The lines of the counts.
    pub fn text(&self, alloc: Global) -> Mem<Vec<u8>>
        ensures { IfOk result (λ text. text.items ≡ counts_text self.now) }
    {
        let mut out = Vec::new(alloc);
        push_row(alloc, &mut out, b"events", self.events)?;
        push_row(alloc, &mut out, b"asks", self.asks)?;
        push_row(alloc, &mut out, b"hits", self.hits)?;
        push_row(alloc, &mut out, b"kept", self.kept)?;
        push_row(alloc, &mut out, b"passed", self.passed)?;
        push_row(alloc, &mut out, b"unkept", self.unkept)?;
        push_row(alloc, &mut out, b"lost", self.lost)?;
        push_row(alloc, &mut out, b"flushes", self.flushes)?;
        push_row(alloc, &mut out, b"done", self.done)?;
        push_row(alloc, &mut out, b"failed", self.failed)?;
        push_row(alloc, &mut out, b"sent", self.sent)?;
        push_row(alloc, &mut out, b"hurt", self.disk_failed)?;
        push_row(alloc, &mut out, b"dry", self.out_of_memory)?;
        Ok(out)
    }
}

// The line of a count.
fn push_row(alloc: Global, out: &mut Vec<u8>, name: &[u8], count: u64) -> Mem<()>
    ensures { OnOk result (out.new.items ≡ out.old.items ++ row name.now count) }
{
    out.extend_from_slice(name)?;
    out.extend_from_slice(b" ")?;
    let number = count.to_string(alloc)?;
    out.extend_from_slice(number.as_bytes())?;
    out.extend_from_slice(b"\n")?;
    Ok(())
}
