//! Streams that come in two pieces: however they are cut, what is sent is the same, served or replayed.
use crate::replaying::is_replayed;
use crate::serving::{PAGE, Row, happenings, served, world_of};
use outside_world::{MemWorld, WorldEntry};
use serve_loop::ServeEnd;
use sp_base::Mem;
use std::alloc::Global;
use std::hash::RandomState;
use std::test::Fail;

/// What was done for a client.
#[derive(Clone, Copy, Drop)]
pub(crate) enum Done<'a> {
    Sent(&'a str),
    Shut,
}

const LAST_PAGE: &str =
    "HTTP/1.1 200 OK\r\nContent-Type: text/plain\r\nContent-Length: 4\r\nConnection: close\r\n\r\npage";

const CONTINUE: &str = "HTTP/1.1 100 Continue\r\n\r\n";

const BAD_REQUEST: &str =
    "HTTP/1.1 400 Bad Request\r\nContent-Type: text/plain;charset=utf-8\r\nContent-Length: 16\r\nConnection: close\r\n\r\n400 Bad Request\n";

const NOT_FOUND: &str =
    "HTTP/1.1 404 Not Found\r\nContent-Type: text/plain;charset=utf-8\r\nContent-Length: 14\r\n\r\n404 Not Found\n";

// Streams, and what is done for them. After a request that closes its connection nothing more is treated.
const STREAMS: &[(&[u8], &[Done<'_>])] = &[
    (
        b"GET /a.html HTTP/1.1\r\nHost: localhost\r\n\r\nGET /b HTTP/1.1\r\nHost: localhost\r\nConnection: close\r\n\r\nGET /c HTTP/1.1\r\n",
        &[Done::Sent(PAGE), Done::Sent(LAST_PAGE), Done::Shut],
    ),
    (
        b"POST /a HTTP/1.1\r\nHost: localhost\r\nExpect: 100-continue\r\nContent-Length: 3\r\n\r\nx=1GET /b HTTP/1.1\r\nHost: other\r\n\r\nGET / HTTP/1.1\r\n\r\n",
        &[
            Done::Sent(CONTINUE),
            Done::Sent(PAGE),
            Done::Sent(NOT_FOUND),
            Done::Sent(BAD_REQUEST),
            Done::Shut,
        ],
    ),
];

fn is_done(entry: &WorldEntry, done: &Done<'_>) -> bool {
    match (entry, done) {
        (WorldEntry::Sent(_, bytes), Done::Sent(text)) => bytes.bytes() == text.as_bytes(),
        (WorldEntry::Shut(_), Done::Shut) => true,
        _ => false,
    }
}

fn is_news(entry: &WorldEntry) -> bool {
    matches!(entry, WorldEntry::Came(_))
}

// Whether a log tells, beside what came, that exactly this was done.
fn tells(log: &[WorldEntry], wanted: &[Done<'_>]) -> bool {
    let mut left = wanted.iter();
    for entry in log {
        if !is_news(entry) && !matches!(left.next(), Some(done) if is_done(entry, done)) {
            return false;
        }
    }
    left.next().is_none()
}

fn world<'a>(alloc: Global, first: &'a [u8], second: &'a [u8]) -> Mem<Option<MemWorld>> {
    let rows = [Row::Opened(1), Row::Piece(1, first), Row::Piece(1, second)];
    world_of(alloc, happenings(alloc, &rows)?, 0, 0)
}

fn is_served(
    alloc: Global,
    seeds: RandomState,
    first: &[u8],
    second: &[u8],
    wanted: &[Done<'_>],
) -> bool {
    match world(alloc, first, second) {
        Ok(Some(mut world)) => {
            matches!(served(alloc, seeds, &mut world, 3), Some(ServeEnd::Turns))
                && tells(world.log().as_slice(), wanted)
        }
        _ => false,
    }
}

// Whether a stream is served as it is replayed, wherever it is cut.
fn is_served_alike(alloc: Global, seeds: RandomState, stream: &[u8], wanted: &[Done<'_>]) -> bool {
    for cut in 1..stream.len() {
        let (first, second) = stream.split_at(cut);
        if !is_replayed(alloc, seeds, first, second, wanted)
            || !is_served(alloc, seeds, first, second, wanted)
        {
            return false;
        }
    }
    true
}

fn are_served_alike(alloc: Global, seeds: RandomState) -> bool {
    STREAMS.iter().all(|(stream, wanted)| is_served_alike(alloc, seeds, *stream, *wanted))
}

#[test]
fn streams_are_served_as_they_are_replayed(rt: HostRuntime) -> Result<(), Fail> {
    let seeds = RandomState::new(&rt)?;
    assert!(rt; are_served_alike(rt.alloc(), seeds));
    Ok(())
}
