//! The number of a flush.
ghost use Rattle.std.specs.Prelude.{◌≡◌, nat_eq};
ghost use Rattle.std.specs.Cmp.{nat_eq_equiv, partial_equiv_from_equiv};

use std::marker::Model;

/// The number of a flush.
#[derive(Clone, Copy)]
pub struct FlushId {
    number: u64,
}

impl Model for FlushId {
    ghost use Rattle.std.specs.Prelude.{ℕ};

    ghost Value = { ℕ };

    ghost view = { λ id. id.number };

    ghost inverse = { λ n. record { number = n } };
}

impl FlushId {
    pub fn new(number: u64) -> FlushId
        ensures { result ≡ number }
    {
        FlushId { number }
    }

    pub fn number(self) -> u64
        ensures { result ≡ self }
    {
        self.number
    }
}

impl PartialEq for FlushId {
    ghost eq = { nat_eq };

    ghost laws = { partial_equiv_from_equiv nat_eq_equiv };

    fn eq(&self, other: &FlushId) -> bool {
        self.number == other.number
    }
}

impl Eq for FlushId {
    ghost laws = { nat_eq_equiv };
}
