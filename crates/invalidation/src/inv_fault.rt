//! Why a request names no invalidation.
ghost use Rattle.std.specs.Prelude.{◌≡◌, Some};
ghost use Rattle.invalidation.specs.FaultTexts.{inv_fault_text};
ghost use Rattle.invalidation.specs.declared.inv_fault.InvFault.TheVariants.{NoMemory as out_of_memory};

use sp_base::NoMemory;
use std::alloc::{AllocError, AllocFailed};
use std::fmt;

/// Why a request names no invalidation. The faults are looked for in this order.
#[derive(Clone, Copy, PartialEq, Eq, Debug, Drop)]
pub enum InvFault {
    /// There is no `CQ-Handle` field.
    NoHandle,
    /// The `CQ-Handle` field, its escapes decoded, spells no path.
    BadHandle,
    /// There is no `CQ-Action` field, or it names no action.
    BadAction,
    NoMemory,
}

impl fmt::Display for InvFault {
    ghost output = { λ fault. Some (inv_fault_text fault) };

    fn fmt<W: fmt::Write>(&self, f: &mut fmt::Formatter<W>) -> fmt::Result {
        match self {
            InvFault::NoHandle => f.write_str("NoHandle"),
            InvFault::BadHandle => f.write_str("BadHandle"),
            InvFault::BadAction => f.write_str("BadAction"),
            InvFault::NoMemory => f.write_str("Out of memory"),
        }
    }
}

impl From<NoMemory> for InvFault {
    ghost from_gives = { λ _ e. e ≡ out_of_memory };

    fn from(_fault: NoMemory) -> InvFault {
        InvFault::NoMemory
    }
}

impl From<AllocError> for InvFault {
    ghost from_gives = { λ _ e. e ≡ out_of_memory };

    fn from(_fault: AllocError) -> InvFault {
        InvFault::NoMemory
    }
}

impl<T: Drop> From<AllocFailed<T>> for InvFault {
    ghost from_gives = { λ _ e. e ≡ out_of_memory };

    fn from(_fault: AllocFailed<T>) -> InvFault {
        InvFault::NoMemory
    }
}
