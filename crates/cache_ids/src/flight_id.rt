//! The number of a flight.
ghost use Rattle.std.specs.Prelude.{◌≡◌, nat_eq};
ghost use Rattle.std.specs.Cmp.{nat_eq_equiv, partial_equiv_from_equiv};

use std::marker::Model;

/// The number of a flight.
#[derive(Clone, Copy)]
pub struct FlightId {
    number: u64,
}

impl Model for FlightId {
    ghost use Rattle.std.specs.Prelude.{ℕ};

    ghost Value = { ℕ };

    ghost view = { λ id. id.number };

    ghost inverse = { λ n. record { number = n } };
}

impl FlightId {
    pub fn new(number: u64) -> FlightId
        ensures { result ≡ number }
    {
        FlightId { number }
    }

    pub fn number(self) -> u64
        ensures { result ≡ self }
    {
        self.number
    }
}

impl PartialEq for FlightId {
    ghost eq = { nat_eq };

    ghost laws = { partial_equiv_from_equiv nat_eq_equiv };

    fn eq(&self, other: &FlightId) -> bool {
        self.number == other.number
    }
}

impl Eq for FlightId {
    ghost laws = { nat_eq_equiv };
}
