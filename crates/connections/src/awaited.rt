//! What an answer waits for.
ghost use Rattle.std.specs.Prelude.{◌≡◌};
ghost use Rattle.connections.specs.Slots.{is_same_awaited};
ghost use Rattle.connections.specs.declared.awaited.Awaited.TheVariants as variant;

use cache_ids::{FlightId, FlushId};

/// What an answer waits for: that a flight lands or is lost, or that a flush ends.
#[derive(Clone, Copy)]
pub enum Awaited {
    Flight(FlightId),
    Flush(FlushId),
}

impl Awaited {
    // Whether both are the same flight, or the same flush.
    pub(crate) fn is_same(&self, other: &Awaited) -> bool
        ensures { result ≡ is_same_awaited self.now other.now }
    {
        match self {
            Awaited::Flight(flight) => other.is_flight(*flight),
            Awaited::Flush(flush) => other.is_flush(*flush),
        }
    }

    fn is_flight(&self, flight: FlightId) -> bool
        ensures { result ≡ is_same_awaited (variant.Flight flight) self.now }
    {
        match self {
            Awaited::Flight(other) => flight == *other,
            Awaited::Flush(_) => false,
        }
    }

    fn is_flush(&self, flush: FlushId) -> bool
        ensures { result ≡ is_same_awaited (variant.Flush flush) self.now }
    {
        match self {
            Awaited::Flush(other) => flush == *other,
            Awaited::Flight(_) => false,
        }
    }
}
