//! Why an operation is refused.
ghost use Rattle.std.specs.Prelude.{◌≡◌, Some};
ghost use Rattle.post_apply.specs.FaultTexts.{apply_fault_text};
ghost use Rattle.post_apply.specs.declared.fault.ApplyFault.TheVariants.{NoMemory as out_of_memory};

use resource_tree::TreeFault;
use sp_base::{NoMemory, Path, TextBuf, ValueFault};
use std::alloc::{AllocError, AllocFailed};
use std::fmt;

/// Why an operation is refused.
#[derive(Drop)]
pub enum ApplyFault {
    /// The tree refuses a change.
    Tree(TreeFault),
    /// The words of the property of this name are no value of its type.
    Value(TextBuf, ValueFault),
    /// The goal of a copy or a move is there, and isn't to be replaced.
    DestThere(Path),
    /// Out of memory.
    NoMemory,
}

impl fmt::Display for ApplyFault {
    ghost output = { λ fault. Some (apply_fault_text fault) };

    fn fmt<W: fmt::Write>(&self, f: &mut fmt::Formatter<W>) -> fmt::Result {
        match self {
            ApplyFault::Tree(fault) => write!(f, "{fault}"),
            ApplyFault::Value(name, fault) => write!(f, "{}: {fault}", name.text()),
            ApplyFault::DestThere(path) => write!(f, "DestThere at {}", path.as_text()),
            ApplyFault::NoMemory => f.write_str("Out of memory"),
        }
    }
}

impl From<NoMemory> for ApplyFault {
    ghost from_gives = { λ _ e. e ≡ out_of_memory };

    fn from(_fault: NoMemory) -> ApplyFault {
        ApplyFault::NoMemory
    }
}

impl From<AllocError> for ApplyFault {
    ghost from_gives = { λ _ e. e ≡ out_of_memory };

    fn from(_fault: AllocError) -> ApplyFault {
        ApplyFault::NoMemory
    }
}

impl<T: Drop> From<AllocFailed<T>> for ApplyFault {
    ghost from_gives = { λ _ e. e ≡ out_of_memory };

    fn from(_fault: AllocFailed<T>) -> ApplyFault {
        ApplyFault::NoMemory
    }
}

impl From<TreeFault> for ApplyFault {
    ghost use Rattle.post_apply.specs.Faults.{apply_fault};

    ghost from_gives = { λ fault e. e ≡ apply_fault fault };

    fn from(fault: TreeFault) -> ApplyFault {
        match fault {
            TreeFault::NoMemory => ApplyFault::NoMemory,
            fault => ApplyFault::Tree(fault),
        }
    }
}
