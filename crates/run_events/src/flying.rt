//! What waits for its end: flights and flushes.
use connections::{ConnectionId, FlightId, FlushId};
use sp_base::{Answer, Req};

/// A flight in the air: a request that the publisher was asked for a connection, and its answer once it is rendered.
#[derive(Drop)]
pub struct Flying {
    pub number: FlightId,
    pub connection: ConnectionId,
    pub request: Req,
    pub rendered: Option<Answer>,
}

/// An unfinished flush, and the connection that waits for its end.
#[derive(Clone, Copy, Drop)]
pub struct Flushing {
    pub number: FlushId,
    pub connection: ConnectionId,
}
