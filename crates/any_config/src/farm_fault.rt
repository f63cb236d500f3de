//! Why a file has no farm that can be used.
ghost use Rattle.std.specs.Prelude.{◌≡◌, Some};
ghost use Rattle.any_config.specs.FaultTexts.{farm_fault_text};
ghost use Rattle.any_config.specs.declared.farm_fault.FarmFault.TheVariants.{NoMemory as out_of_memory};

use sp_base::{NoMemory, TextBuf};
use std::alloc::{AllocError, AllocFailed};
use std::fmt;

/// Why a file has no farm that can be used. Each names the member that it is about; where that has no name, the group in which it
/// stands.
#[derive(Drop)]
pub enum FarmFault {
    /// It isn't there.
    Missing(TextBuf),
    /// It has another shape than it should, or a value out of range, or a glob or a pattern that doesn't read.
    BadKind(TextBuf),
    /// It asks for what isn't built: a second farm, or a text in single quotes that no member of the filter has.
    NotSupported(TextBuf),
    NoMemory,
}

impl fmt::Display for FarmFault {
    ghost output = { λ fault. Some (farm_fault_text fault) };

    fn fmt<W: fmt::Write>(&self, f: &mut fmt::Formatter<W>) -> fmt::Result {
        match self {
            FarmFault::Missing(member) => write!(f, "Missing {}", member.text()),
            FarmFault::BadKind(member) => write!(f, "BadKind {}", member.text()),
            FarmFault::NotSupported(member) => write!(f, "NotSupported {}", member.text()),
            FarmFault::NoMemory => Ok(()),
        }
    }
}

impl From<NoMemory> for FarmFault {
    ghost from_gives = { λ _ e. e ≡ out_of_memory };

    fn from(_fault: NoMemory) -> FarmFault {
        FarmFault::NoMemory
    }
}

impl From<AllocError> for FarmFault {
    ghost from_gives = { λ _ e. e ≡ out_of_memory };

    fn from(_fault: AllocError) -> FarmFault {
        FarmFault::NoMemory
    }
}

impl<T: Drop> From<AllocFailed<T>> for FarmFault {
    ghost from_gives = { λ _ e. e ≡ out_of_memory };

    fn from(_fault: AllocFailed<T>) -> FarmFault {
        FarmFault::NoMemory
    }
}
