//! What happens in an event.
use connections::{ConnectionId, FlightId, FlushId};
use cover_rules::{Invalidation, PageKey};
use http_front::SentBytes;
use sp_base::{Answer, Items};

/// Why a flush failed.
#[derive(Clone, Copy, PartialEq, Eq, Drop)]
pub enum Failure {
    /// The disk failed.
    Disk,
    /// Memory ran out.
    NoMemory,
    /// A restart cut it off.
    Restart,
}

/// What happens in an event. Flights, flushes and connections are named by their numbers.
#[derive(Drop)]
pub enum Note {
    /// The publisher answers a target.
    Answer(Answer),
    /// A flight is in the air, for a connection, and for a page of the cache if it has one.
    Ask(FlightId, ConnectionId, Option<PageKey>),
    /// A turn of a connection is answered from the cache, by this page.
    Hit(ConnectionId, PageKey),
    /// A turn of a connection is answered by this status.
    Local(ConnectionId, u16),
    /// A flush begins, which a connection asked for.
    Flush(FlushId, ConnectionId, Invalidation),
    /// A slice of a flush left more to do. (No line of a transcript says so.)
    Sliced(FlushId),
    /// A flush ended: all that it deletes is gone, and all that it touches is touched.
    Done(FlushId),
    /// A flush ended, and may have left what it deletes or touches.
    Failed(FlushId, Failure),
    /// A flight is rendered.
    Rendered(FlightId, Answer),
    /// A flight has landed, and its answer is kept for this page.
    Kept(FlightId, PageKey),
    /// A flight has landed, and its answer may be kept or not, since the disk failed or memory ran out.
    Unkept(FlightId),
    /// A flight has landed, and its answer is passed on.
    Passed(FlightId),
    /// A flight is lost.
    Lost(FlightId),
    /// Bytes are sent on a connection.
    Sent(ConnectionId, SentBytes),
    /// A connection is shut.
    Shut(ConnectionId),
    /// There is no room for a connection.
    Refused(ConnectionId),
    /// The step does nothing.
    Idle,
    /// The cache came up again, with this epoch.
    Up(u64),
    /// The cache went down.
    Down,
    /// The disk failed.
    Hurt,
    /// Memory ran out.
    OutOfMemory,
}

pub type NoteList = Items<Note>;
