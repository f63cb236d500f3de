//! What a replay sends for a stream: its lines are steps of a front, and nothing stands between these.
use crate::cuttings::Done;
use crate::pages::OnePage;
use crate::serving::front_over;
use connections::ConnectionId;
use front::{Front, Note, Pick, Step};
use sp_base::{ByteBuf, Mem, TextBuf};
use sp_outside::MemDisk;
use std::alloc::Global;
use std::hash::RandomState;

// No stream asks for more flights.
const FLIGHTS: usize = 3;

// The client comes, and its two pieces; then the flights are rendered and land, one after another.
fn steps_of(alloc: Global, first: &[u8], second: &[u8]) -> Mem<Vec<Step>> {
    let conn = ConnectionId::new(1);
    let mut steps = Vec::new(alloc);
    steps.push(Step::Opened(conn, TextBuf::of(alloc, "127.0.0.1")?))?;
    steps.push(Step::Piece(conn, ByteBuf::of(alloc, first)?))?;
    steps.push(Step::Piece(conn, ByteBuf::of(alloc, second)?))?;
    for _ in 0..FLIGHTS {
        steps.push(Step::Render(Pick::First))?;
        steps.push(Step::Deliver(Pick::First))?;
    }
    Ok(steps)
}

fn is_for_the_client(note: &Note) -> bool {
    matches!(note, Note::Sent(_, _) | Note::Shut(_) | Note::Refused(_))
}

fn is_done(note: &Note, done: &Done<'_>) -> bool {
    match (note, done) {
        (Note::Sent(_, bytes), Done::Sent(text)) => bytes.is(text.as_bytes()),
        (Note::Shut(_), Done::Shut) => true,
        _ => false,
    }
}

// How much of what is wanted was done after these notes, where so much was done before and they are wanted.
fn done_after(notes: &[Note], wanted: &[Done<'_>], before: usize) -> Option<usize> {
    let mut count = before;
    for note in notes {
        if !is_for_the_client(note) {
            continue;
        }
        if !matches!(wanted.get(count), Some(done) if is_done(note, done)) {
            return None;
        }
        count = count.saturating_add(1);
    }
    Some(count)
}

fn are_wanted(
    alloc: Global,
    front: &mut Front<OnePage>,
    disk: &mut MemDisk,
    steps: &[Step],
    wanted: &[Done<'_>],
) -> bool {
    let mut count = 0;
    for step in steps {
        let Ok(notes) = front.step(alloc, disk, step) else {
            return false;
        };
        let Some(after) = done_after(notes.as_slice(), wanted, count) else {
            return false;
        };
        count = after;
    }
    count == wanted.len()
}

/// Whether exactly this is done for a client whose stream comes in these pieces.
pub(crate) fn is_replayed(
    alloc: Global,
    seeds: RandomState,
    first: &[u8],
    second: &[u8],
    wanted: &[Done<'_>],
) -> bool {
    let mut disk = MemDisk::new(alloc);
    let Some(mut front) = front_over(alloc, seeds, &mut disk) else {
        return false;
    };
    let is_replayed = match steps_of(alloc, first, second) {
        Ok(steps) => are_wanted(alloc, &mut front, &mut disk, steps.as_slice(), wanted),
        Err(_) => false,
    };
    drop(front.end());
    is_replayed
}
