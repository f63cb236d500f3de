//! Why a text is no pattern.
ghost use Rattle.std.specs.Prelude.{◌≡◌, Some};
ghost use Rattle.regex_rules.specs.FaultTexts.{pattern_fault_text};
ghost use Rattle.regex_rules.specs.declared.fault.PatternFault.TheVariants.{NoMemory as out_of_memory};

use sp_base::NoMemory;
use std::alloc::{AllocError, AllocFailed};
use std::fmt;

/// Why a text is no pattern. Places are bytes, counted from 0.
#[derive(Clone, Copy, PartialEq, Eq, Debug, Drop)]
pub enum PatternFault {
    /// With what stands at this place no pattern goes on, or the text ends there and a pattern doesn't; or a range begins there
    /// whose first character is above its last.
    BadPattern(usize),
    /// The bracket at this place would nest deeper than 32.
    TooDeep(usize),
    NoMemory,
}

impl fmt::Display for PatternFault {
    ghost output = { λ fault. Some (pattern_fault_text fault) };

    fn fmt<W: fmt::Write>(&self, f: &mut fmt::Formatter<W>) -> fmt::Result {
        match self {
            PatternFault::BadPattern(at) => write!(f, "BadPattern at {at}"),
            PatternFault::TooDeep(at) => write!(f, "TooDeep at {at}"),
            PatternFault::NoMemory => f.write_str("Out of memory"),
        }
    }
}

impl From<NoMemory> for PatternFault {
    ghost from_gives = { λ _ e. e ≡ out_of_memory };

    fn from(_fault: NoMemory) -> PatternFault {
        PatternFault::NoMemory
    }
}

impl From<AllocError> for PatternFault {
    ghost from_gives = { λ _ e. e ≡ out_of_memory };

    fn from(_fault: AllocError) -> PatternFault {
        PatternFault::NoMemory
    }
}

impl<T: Drop> From<AllocFailed<T>> for PatternFault {
    ghost from_gives = { λ _ e. e ≡ out_of_memory };

    fn from(_fault: AllocFailed<T>) -> PatternFault {
        PatternFault::NoMemory
    }
}
