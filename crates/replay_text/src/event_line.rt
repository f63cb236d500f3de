//! The lines of events.
use connections::{ConnectionId, FlightId};
use cover_rules::Action;
use sp_base::{ByteBuf, TextBuf};
use sp_outside::Way;

/// Which flight an event is about.
#[derive(Drop)]
pub enum NamedFlight {
    /// The first that the event can be about.
    First,
    /// The one of this number, from 1.
    Numbered(FlightId),
}

/// What a line of a scenario asks for.
#[derive(Drop)]
pub enum EventLine {
    /// A target is asked of the publisher, past the cache.
    Direct(TextBuf),
    /// A peer opens a connection.
    Open(ConnectionId, TextBuf),
    /// The peer of a connection closes it.
    Close(ConnectionId),
    /// Bytes come on a connection.
    Bytes(ConnectionId, ByteBuf),
    /// A GET of a target comes on a connection.
    Get(ConnectionId, TextBuf),
    /// A POST to a target comes on a connection, with a form as its body.
    Post(ConnectionId, TextBuf, ByteBuf),
    /// A POST comes on a connection that asks for an invalidation: what was done to the content at a handle, and whether no .stat file
    /// is touched.
    Flush(ConnectionId, Action, TextBuf, bool),
    /// The answer of a flight is made.
    Render(NamedFlight),
    /// The answer of a flight arrives.
    Deliver(NamedFlight),
    /// The answer of a flight is lost.
    Lose(NamedFlight),
    /// A slice of the oldest flush under way is made.
    Purge,
    /// The cache begins anew over its files.
    Restart,
    /// This one of the disk's next calls fails, counted from 1. No event comes of it.
    Fail(u64, Way),
    /// This one of the disk's next calls fails, and every later one until the next restart, which change nothing. No event comes of it.
    Stop(u64, Way),
}
