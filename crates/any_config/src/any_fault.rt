//! Why bytes are no `dispatcher.any` file.
ghost use Rattle.std.specs.Prelude.{◌≡◌, Some};
ghost use Rattle.any_config.specs.FaultTexts.{any_fault_text};
ghost use Rattle.any_config.specs.declared.any_fault.AnyFault.TheVariants.{NoMemory as out_of_memory};

use sp_base::NoMemory;
use std::alloc::{AllocError, AllocFailed};
use std::fmt;

/// Why bytes are no `dispatcher.any` file. Places are counted in bytes from 0.
#[derive(Clone, Copy, PartialEq, Eq, Drop)]
pub enum AnyFault {
    /// A name without a value begins here, or here stands a byte that begins no member, as a `}` that closes nothing.
    BadName(usize),
    /// The text in quotes that begins here isn't closed on its line, or is no UTF-8.
    BadQuote(usize),
    /// Here opens a group inside of 32 others.
    TooDeep(usize),
    /// Here opens a group that nothing closes.
    Unclosed(usize),
    NoMemory,
}

impl fmt::Display for AnyFault {
    ghost output = { λ fault. Some (any_fault_text fault) };

    fn fmt<W: fmt::Write>(&self, f: &mut fmt::Formatter<W>) -> fmt::Result {
        match self {
            AnyFault::BadName(at) => write!(f, "BadName at {at}"),
            AnyFault::BadQuote(at) => write!(f, "BadQuote at {at}"),
            AnyFault::TooDeep(at) => write!(f, "TooDeep at {at}"),
            AnyFault::Unclosed(at) => write!(f, "Unclosed at {at}"),
            AnyFault::NoMemory => Ok(()),
        }
    }
}

impl From<NoMemory> for AnyFault {
    ghost from_gives = { λ _ e. e ≡ out_of_memory };

    fn from(_fault: NoMemory) -> AnyFault {
        AnyFault::NoMemory
    }
}

impl From<AllocError> for AnyFault {
    ghost from_gives = { λ _ e. e ≡ out_of_memory };

    fn from(_fault: AllocError) -> AnyFault {
        AnyFault::NoMemory
    }
}

impl<T: Drop> From<AllocFailed<T>> for AnyFault {
    ghost from_gives = { λ _ e. e ≡ out_of_memory };

    fn from(_fault: AllocFailed<T>) -> AnyFault {
        AnyFault::NoMemory
    }
}
