//! What an event does.
use connections::{ConnectionId, FlightId};
use sp_base::{ByteBuf, TextBuf};

/// Which of the flights that a step can take.
#[derive(Drop)]
pub enum Pick {
    /// The one with this number.
    Number(FlightId),
    /// The one with the least number.
    First,
}

/// What an event does. A connection is named by a number.
#[derive(Drop)]
pub enum Step {
    /// A connection is there, from this peer.
    Opened(ConnectionId, TextBuf),
    /// Bytes come on a connection.
    Piece(ConnectionId, ByteBuf),
    /// A connection is gone.
    Gone(ConnectionId),
    /// The publisher is asked for a target, past the connections.
    Direct(TextBuf),
    /// A flight is rendered.
    Render(Pick),
    /// A rendered flight lands.
    Deliver(Pick),
    /// A flight is lost.
    Lose(Pick),
    /// The oldest unfinished flush gets a slice.
    Purge,
    /// The cache and its connections begin anew over the same files. The publisher's content stays.
    Restart,
}
