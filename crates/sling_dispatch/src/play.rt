//! Makes the events of a scenario, and writes its transcript in large parts.
ghost use Rattle.std.specs.Prelude.{◌≡◌, ◌++◌, ℕ, OnOk, OnErr, take, true, false};
ghost use Rattle.sp_outside.specs.Told.{held_after};
ghost use Rattle.sp_outside.specs.Causes.{HasSinkCause};
ghost use Rattle.sling_dispatch.specs.Reports.{report_over};
ghost use Rattle.sling_dispatch.specs.InnerEndings.{AreActLines, PlaysAll, GathersText};

use crate::ending::Ending;
use crate::session::Session;
use crate::streams::write_all;
use crate::telling::{ending_by, say};
use any_config::Farm;
use publisher::Publisher;
use replay_text::acts_are_told_by_their_lines;
use run_laws::events_extend;
use sp_outside::{Sink, SinkFault};
use std::alloc::Global;
use std::mem::forget;

// How many bytes are gathered before they are written.
const GATHERED_BYTES: usize = 65_536;

// Makes the events of acts, and writes their transcript. What was gathered is written whatever the run ends with.
pub fn play<K: Sink>(
    alloc: Global,
    publisher: Publisher,
    farm: Farm,
    acts: &[u8],
    sink: &mut K,
) -> Ending
    requires { AreActLines acts.now }
    ensures { PlaysAll publisher farm acts.now result (report_over K.held K.faults sink.old sink.new) }
{
    events_extend();
    acts_are_told_by_their_lines();
    let Ok(mut session) = Session::begin(alloc, publisher, farm) else {
        return Ending::NoMemory;
    };
    let mut gathered = Vec::new(alloc);
    let mut rest = acts;
    while !rest.is_empty() {
        let Ok((text, after)) = session.play_line(alloc, rest) else {
            drop(session.end());
            return say(sink, &gathered, Ending::NoMemory);
        };
        if let Err(fault) = gather(sink, &mut gathered, &text) {
            drop(session.end());
            return ending_by(fault);
        }
        rest = after;
    }
    // The program ends with its run, and the system takes all memory back at once: given up node by node, a large content would cost
    // a seventh of the time that it took to read.
    forget(session.end());
    say(sink, &gathered, Ending::Done)
}

// Puts a text after those gathered. They are written first where there would be too many bytes, and the text with them
// where there is no memory to gather it.
fn gather<K: Sink>(sink: &mut K, gathered: &mut Vec<u8>, text: &[u8]) -> Result<(), SinkFault>
    ensures ok { OnOk result (GathersText (K.held sink.old) gathered.old.items (K.held sink.new) gathered.new.items text.now) }
    ensures err { OnErr result ((n : ℕ) × (K.held sink.new ≡ held_after (K.held sink.old) (take n (gathered.old.items ++ text.now)))) }
    ensures cause { HasSinkCause (K.faults sink.old) (K.faults sink.new) result }
{
    if keep(gathered, text) {
        return Ok(());
    }
    write_all(sink, gathered)?;
    gathered.clear();
    write_all(sink, text)
}

// Puts a text after those gathered, where there is room and memory.
fn keep(gathered: &mut Vec<u8>, text: &[u8]) -> bool
    ensures kept { result ≡ true → gathered.new.items ≡ gathered.old.items ++ text.now }
    ensures not_kept { result ≡ false → gathered.new.items ≡ gathered.old.items }
{
    if gathered.len().saturating_add(text.len()) > GATHERED_BYTES {
        return false;
    }
    gathered.extend_from_slice(text).is_ok()
}
