//! The number of a connection.
ghost use Rattle.std.specs.Prelude.{◌≡◌, Some, nat_eq, refl};
ghost use Rattle.std.specs.Cmp.{nat_cmp_total, nat_eq_equiv, partial_equiv_from_equiv, unsigned_po, unsigned_ties};
ghost use Rattle.std.specs.Ordering.{nat_cmp};

use std::cmp::Ordering;
use std::marker::Model;

/// The number of a connection.
#[derive(Clone, Copy)]
pub struct ConnectionId {
    number: u32,
}

impl Model for ConnectionId {
    ghost use Rattle.std.specs.Prelude.{ℕ};

    ghost Value = { ℕ };

    ghost view = { λ id. id.number };

    ghost inverse = { λ n. record { number = n } };
}

impl ConnectionId {
    pub fn new(number: u32) -> ConnectionId
        ensures { result ≡ number }
    {
        ConnectionId { number }
    }

    pub fn number(self) -> u32
        ensures { result ≡ self }
    {
        self.number
    }
}

impl PartialEq for ConnectionId {
    ghost eq = { nat_eq };

    ghost laws = { partial_equiv_from_equiv nat_eq_equiv };

    fn eq(&self, other: &ConnectionId) -> bool {
        self.number == other.number
    }
}

impl Eq for ConnectionId {
    ghost laws = { nat_eq_equiv };
}

impl PartialOrd for ConnectionId {
    ghost partial_cmp = { λ x y. Some (nat_cmp x y) };

    ghost laws = { unsigned_po };

    fn partial_cmp(&self, other: &ConnectionId) -> Option<Ordering> {
        Some(self.cmp(other))
    }
}

impl Ord for ConnectionId {
    ghost cmp = { nat_cmp };

    ghost total = { nat_cmp_total };

    ghost matches_partial_cmp = { λ x y. refl };

    ghost matches_eq = { unsigned_ties };

    fn cmp(&self, other: &ConnectionId) -> Ordering {
        self.number.cmp(&other.number)
    }
}
