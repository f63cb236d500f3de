//! Why a text is no glob.
ghost use Rattle.std.specs.Prelude.{◌≡◌, Some};
ghost use Rattle.glob_rules.specs.FaultTexts.{glob_fault_text};
ghost use Rattle.glob_rules.specs.declared.fault.GlobFault.TheVariants.{NoMemory as out_of_memory};

use sp_base::NoMemory;
use std::alloc::{AllocError, AllocFailed};
use std::fmt;

/// Why a text is no glob.
#[derive(Clone, Copy, PartialEq, Eq, Debug, Drop)]
pub enum GlobFault {
    /// No `]` closes the class whose `[` stands at this byte, counted from 0.
    OpenClass(usize),
    NoMemory,
}

impl fmt::Display for GlobFault {
    ghost output = { λ fault. Some (glob_fault_text fault) };

    fn fmt<W: fmt::Write>(&self, f: &mut fmt::Formatter<W>) -> fmt::Result {
        match self {
            GlobFault::OpenClass(at) => write!(f, "OpenClass at {at}"),
            GlobFault::NoMemory => f.write_str("Out of memory"),
        }
    }
}

impl From<NoMemory> for GlobFault {
    ghost from_gives = { λ _ e. e ≡ out_of_memory };

    fn from(_fault: NoMemory) -> GlobFault {
        GlobFault::NoMemory
    }
}

impl From<AllocError> for GlobFault {
    ghost from_gives = { λ _ e. e ≡ out_of_memory };

    fn from(_fault: AllocError) -> GlobFault {
        GlobFault::NoMemory
    }
}

impl<T: Drop> From<AllocFailed<T>> for GlobFault {
    ghost from_gives = { λ _ e. e ≡ out_of_memory };

    fn from(_fault: AllocFailed<T>) -> GlobFault {
        GlobFault::NoMemory
    }
}
