//! A connection for whose answer no memory was there. Connections with answers are stored runs (examples/runs: pipelines, limits).
use connections::{AnswerPlace, AnswerQueue, Awaited, FlightId, Reply};
use std::alloc::Global;

const FIXED: &[u8] =
    b"HTTP/1.1 507 Insufficient Storage\r\nContent-Length: 0\r\nConnection: close\r\n\r\n";

fn fixed_place() -> AnswerPlace {
    AnswerPlace {
        head_only: false,
        closes: false,
        reply: Reply::Fixed,
    }
}

fn sends_fixed(alloc: Global, queue: &mut AnswerQueue) -> bool {
    matches!(queue.send(alloc), Some(sending) if sending.bytes.is(FIXED))
}

// Whether the fixed answer is the last that is sent, whatever stands after it. No place awaits the flight that is filled.
fn closes_after_fixed(alloc: Global, queue: &mut AnswerQueue) -> bool {
    let is_full = queue.push(fixed_place()).is_ok()
        && queue.push(AnswerPlace::of_fault(Reply::Own(400))).is_ok();
    queue.fill(Awaited::Flight(FlightId::new(3)), Reply::Own(502));
    is_full && sends_fixed(alloc, queue) && queue.send(alloc).is_none() && queue.is_over()
}

fn closes(alloc: Global) -> bool {
    match AnswerQueue::new(alloc) {
        Ok(mut queue) => closes_after_fixed(alloc, &mut queue),
        Err(_) => false,
    }
}

#[test]
fn closes_after_the_fixed_507(rt: HostRuntime) {
    assert!(rt; closes(rt.alloc()));
}
