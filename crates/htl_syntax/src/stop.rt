//! Why a text could not be read.

ghost use Rattle.std.specs.Prelude.{◌≡◌};
ghost use Rattle.htl_syntax.specs.declared.stop.ExprStop.TheVariants.{NoMemory};

use sp_base::NoMemory;
use std::alloc::{AllocError, AllocFailed};

/// A place is given by how many bytes are left there.
#[derive(Drop)]
pub enum ExprStop {
    NoMemory,
    Unexpected(usize),
    TooDeep(usize),
}

impl From<NoMemory> for ExprStop {
    ghost from_gives = { λ _ e. e ≡ NoMemory };

    fn from(_fault: NoMemory) -> ExprStop {
        ExprStop::NoMemory
    }
}

impl From<AllocError> for ExprStop {
    ghost from_gives = { λ _ e. e ≡ NoMemory };

    fn from(_fault: AllocError) -> ExprStop {
        ExprStop::NoMemory
    }
}

impl<T: Drop> From<AllocFailed<T>> for ExprStop {
    ghost from_gives = { λ _ e. e ≡ NoMemory };

    fn from(_fault: AllocFailed<T>) -> ExprStop {
        ExprStop::NoMemory
    }
}
