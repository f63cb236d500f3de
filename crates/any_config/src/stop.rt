//! Why bytes could not be read.
ghost use Rattle.std.specs.Prelude.{◌≡◌};
ghost use Rattle.any_config.specs.declared.stop.AnyStop.TheVariants.{NoMemory};

use sp_base::NoMemory;
use std::alloc::{AllocError, AllocFailed};

/// A place is told by how many bytes are left there.
#[derive(Clone, Copy, Drop)]
pub enum AnyStop {
    NoMemory,
    BadName(usize),
    BadQuote(usize),
    TooDeep(usize),
    Unclosed(usize),
}

impl From<NoMemory> for AnyStop {
    ghost from_gives = { λ _ e. e ≡ NoMemory };

    fn from(_fault: NoMemory) -> AnyStop {
        AnyStop::NoMemory
    }
}

impl From<AllocError> for AnyStop {
    ghost from_gives = { λ _ e. e ≡ NoMemory };

    fn from(_fault: AllocError) -> AnyStop {
        AnyStop::NoMemory
    }
}

impl<T: Drop> From<AllocFailed<T>> for AnyStop {
    ghost from_gives = { λ _ e. e ≡ NoMemory };

    fn from(_fault: AllocFailed<T>) -> AnyStop {
        AnyStop::NoMemory
    }
}
