//! Why parameters ask for no operation.
ghost use Rattle.std.specs.Prelude.{◌≡◌, Some};
ghost use Rattle.post_plan.specs.FaultTexts.{plan_fault_text};
ghost use Rattle.post_plan.specs.declared.fault.PlanFault.TheVariants.{NoMemory as out_of_memory};

use sp_base::{NoMemory, TextBuf};
use std::alloc::{AllocError, AllocFailed};
use std::fmt;

#[derive(Drop)]
pub enum PlanFault {
    /// `:operation` names no operation.
    BadOperation,
    /// A copy or a move without a `:dest`.
    NoDest,
    /// `:order` names no place.
    BadOrder,
    /// The parameter of this name has an unknown suffix, or names an unknown type.
    BadHint(TextBuf),
    /// This text is no path, leads above the root, or leads to what isn't changed.
    BadPath(TextBuf),
    NoMemory,
}

impl fmt::Display for PlanFault {
    ghost output = { λ fault. Some (plan_fault_text fault) };

    fn fmt<W: fmt::Write>(&self, f: &mut fmt::Formatter<W>) -> fmt::Result {
        match self {
            PlanFault::BadOperation => f.write_str("BadOperation"),
            PlanFault::NoDest => f.write_str("NoDest"),
            PlanFault::BadOrder => f.write_str("BadOrder"),
            PlanFault::BadHint(parameter) => write!(f, "BadHint {}", parameter.text()),
            PlanFault::BadPath(text) => write!(f, "BadPath {}", text.text()),
            PlanFault::NoMemory => f.write_str("Out of memory"),
        }
    }
}

impl From<NoMemory> for PlanFault {
    ghost from_gives = { λ _ e. e ≡ out_of_memory };

    fn from(_fault: NoMemory) -> PlanFault {
        PlanFault::NoMemory
    }
}

impl From<AllocError> for PlanFault {
    ghost from_gives = { λ _ e. e ≡ out_of_memory };

    fn from(_fault: AllocError) -> PlanFault {
        PlanFault::NoMemory
    }
}

impl<T: Drop> From<AllocFailed<T>> for PlanFault {
    ghost from_gives = { λ _ e. e ≡ out_of_memory };

    fn from(_fault: AllocFailed<T>) -> PlanFault {
        PlanFault::NoMemory
    }
}
