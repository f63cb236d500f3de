//! Which type of value words are to become.
ghost use Rattle.std.specs.Prelude.{◌≡◌};
ghost use Rattle.sp_base.specs.declared.hint.ValueFault.TheVariants.{NoMemory as out_of_memory};

use crate::NoMemory;
use std::alloc::{AllocError, AllocFailed};

/// The type of value that words are to become.
#[derive(Clone, Copy, PartialEq, Eq, Debug, Drop)]
pub enum HintedType {
    Text,
    Long,
    Truth,
}

/// What words are to become: one value of a type, or a list of these.
#[derive(Clone, Copy, PartialEq, Eq, Debug, Drop)]
pub struct Hint {
    pub hinted: HintedType,
    pub many: bool,
}

/// Why words are no such value.
#[derive(Clone, Copy, PartialEq, Eq, Debug, Drop)]
pub enum ValueFault {
    /// One value is wanted, and there are this many words.
    WrongCount(usize),
    /// The word at this place, counted from 0, is the first that is no number.
    NotANumber(usize),
    NoMemory,
}

impl From<NoMemory> for ValueFault {
    ghost from_gives = { λ _ e. e ≡ out_of_memory };

    fn from(_fault: NoMemory) -> ValueFault {
        ValueFault::NoMemory
    }
}

impl From<AllocError> for ValueFault {
    ghost from_gives = { λ _ e. e ≡ out_of_memory };

    fn from(_fault: AllocError) -> ValueFault {
        ValueFault::NoMemory
    }
}

impl<T: Drop> From<AllocFailed<T>> for ValueFault {
    ghost from_gives = { λ _ e. e ≡ out_of_memory };

    fn from(_fault: AllocFailed<T>) -> ValueFault {
        ValueFault::NoMemory
    }
}
