//! What of an event is handed on to the world.
ghost use Rattle.std.specs.Prelude.{◌≡◌, ◌++◌};
ghost use Rattle.outside_world.specs.Faults.{HasRisenBy};
ghost use Rattle.run_events.specs.declared.note.Note.TheVariants.{Sent};
ghost use Rattle.serve_loop.specs.Hands.{HandsOn, HandsOneOn, failures_of};

use connections::ConnectionId;
use http_front::SentParts;
use outside_world::{SendFault, World};
use run_events::Note;
use std::alloc::Global;

/// How far the notes of an event were handed on to the world.
#[derive(Clone, Copy, Drop)]
pub enum HandedOn {
    All,
    /// To a sending on this connection that failed. It was shut in its place.
    FailedAt(ConnectionId),
    /// To a sending for which there was no memory.
    NoMemory,
}

// Hands the notes on in their order. A connection on which a sending fails is shut, and no later note is handed on.
pub(crate) fn hand_on<W: World>(alloc: Global, world: &mut W, notes: &[Note]) -> HandedOn
    ensures log { HandsOn result (W.log world.old) (W.log world.new) notes.now }
    ensures send_count { HasRisenBy (failures_of result) (W.send_faults world.old) (W.send_faults world.new) }
    ensures next_count { W.next_faults world.new ≡ W.next_faults world.old }
{
    for note in notes {
        match hand_one(alloc, world, note) {
            HandedOn::All => {}
            stopped => return stopped,
        }
    }
    HandedOn::All
}

// Hands a note on, if it is for the world.
fn hand_one<W: World>(alloc: Global, world: &mut W, note: &Note) -> HandedOn
    ensures log { HandsOneOn result (W.log world.old) (W.log world.new) note.now }
    ensures send_count { HasRisenBy (failures_of result) (W.send_faults world.old) (W.send_faults world.new) }
    ensures next_count { W.next_faults world.new ≡ W.next_faults world.old }
{
    match note {
        Note::Sent(c, bytes) => send(alloc, world, *c, bytes.parts()),
        Note::Shut(c) | Note::Refused(c) => {
            world.shut(*c);
            HandedOn::All
        }
        _ => HandedOn::All,
    }
}

// Sends bytes on a connection, which is shut where that fails.
fn send<W: World>(alloc: Global, world: &mut W, c: ConnectionId, bytes: SentParts<'_>) -> HandedOn
    ensures log { HandsOneOn result (W.log world.old) (W.log world.new) (Sent c (bytes.entry.head.now ++ bytes.entry.body.now)) }
    ensures send_count { HasRisenBy (failures_of result) (W.send_faults world.old) (W.send_faults world.new) }
    ensures next_count { W.next_faults world.new ≡ W.next_faults world.old }
{
    match world.send_both(alloc, c, bytes.head, bytes.body) {
        Ok(()) => HandedOn::All,
        Err(SendFault::Failed) => {
            world.shut(c);
            HandedOn::FailedAt(c)
        }
        Err(SendFault::NoMemory) => HandedOn::NoMemory,
    }
}
