//! Tickets of flights.
ghost use Rattle.std.specs.Prelude.{◌≡◌};

use cache_ids::FlightId;
use std::marker::Model;

/// Stands for a flight in the air, and is spent when that lands or is lost. It can't be dropped.
pub struct Ticket {
    pub(crate) number: FlightId,
}

impl Model for Ticket {
    ghost use Rattle.std.specs.Prelude.{ℕ};

    ghost Value = { ℕ };

    ghost view = { λ ticket. ticket.number };
}

impl Ticket {
    pub fn number(&self) -> FlightId
        ensures { result ≡ self.now }
    {
        self.number
    }
}
