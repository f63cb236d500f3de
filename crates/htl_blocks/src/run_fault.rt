//! Why a script's text is refused.

ghost use Rattle.std.specs.Prelude.{◌≡◌, Some};
ghost use Rattle.htl_blocks.specs.FaultTexts.{run_fault_text};
ghost use Rattle.htl_blocks.specs.declared.run_fault.RunFault.TheVariants as fault;

use sp_base::NoMemory;
use std::alloc::{AllocError, AllocFailed};
use std::fmt;

/// Why the blocks of a script write no text.
#[derive(Drop)]
pub enum RunFault {
    /// The text, or the variables of a setting, would have more than 4,194,304 bytes.
    TooLong,
    /// More than 1,000 scripts and resources would be put in, or the contents of lists would stand more than 1,000,000 times.
    TooMany,
    NoMemory,
}

impl fmt::Display for RunFault {
    ghost output = { λ fault. Some (run_fault_text fault) };

    fn fmt<W: fmt::Write>(&self, f: &mut fmt::Formatter<W>) -> fmt::Result {
        match self {
            RunFault::TooLong => f.write_str("TooLong"),
            RunFault::TooMany => f.write_str("TooMany"),
            RunFault::NoMemory => f.write_str("Out of memory"),
        }
    }
}

impl From<NoMemory> for RunFault {
    ghost from_gives = { λ _ e. e ≡ fault.NoMemory };

    fn from(_fault: NoMemory) -> RunFault {
        RunFault::NoMemory
    }
}

impl From<AllocError> for RunFault {
    ghost from_gives = { λ _ e. e ≡ fault.NoMemory };

    fn from(_fault: AllocError) -> RunFault {
        RunFault::NoMemory
    }
}

impl<T: Drop> From<AllocFailed<T>> for RunFault {
    ghost from_gives = { λ _ e. e ≡ fault.NoMemory };

    fn from(_fault: AllocFailed<T>) -> RunFault {
        RunFault::NoMemory
    }
}
