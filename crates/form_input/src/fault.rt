//! Why a body is no form.
ghost use Rattle.std.specs.Prelude.{◌≡◌, Some};
ghost use Rattle.form_input.specs.FaultTexts.{form_fault_text};
ghost use Rattle.form_input.specs.declared.fault.FormFault.TheVariants.{NoMemory as out_of_memory};

use sp_base::NoMemory;
use std::alloc::{AllocError, AllocFailed};
use std::fmt;

#[derive(Clone, Copy, PartialEq, Eq, Debug, Drop)]
pub enum FormFault {
    /// The Content-Type is that of no form.
    WrongKind,
    /// A multipart body without a boundary of 1 to 70 bytes.
    NoBoundary,
    /// The part whose boundary line stands at this byte has no name, or no body in UTF-8; or, at the end of the body, the
    /// closing boundary line is missing.
    BadPart(usize),
    /// There are more than `MOST_PAIRS` pairs.
    TooMany,
    NoMemory,
}

impl fmt::Display for FormFault {
    ghost output = { λ fault. Some (form_fault_text fault) };

    fn fmt<W: fmt::Write>(&self, f: &mut fmt::Formatter<W>) -> fmt::Result {
        match self {
            FormFault::WrongKind => f.write_str("WrongKind"),
            FormFault::NoBoundary => f.write_str("NoBoundary"),
            FormFault::BadPart(at) => write!(f, "BadPart at {at}"),
            FormFault::TooMany => f.write_str("TooMany"),
            FormFault::NoMemory => f.write_str("Out of memory"),
        }
    }
}

impl From<NoMemory> for FormFault {
    ghost from_gives = { λ _ e. e ≡ out_of_memory };

    fn from(_fault: NoMemory) -> FormFault {
        FormFault::NoMemory
    }
}

impl From<AllocError> for FormFault {
    ghost from_gives = { λ _ e. e ≡ out_of_memory };

    fn from(_fault: AllocError) -> FormFault {
        FormFault::NoMemory
    }
}

impl<T: Drop> From<AllocFailed<T>> for FormFault {
    ghost from_gives = { λ _ e. e ≡ out_of_memory };

    fn from(_fault: AllocFailed<T>) -> FormFault {
        FormFault::NoMemory
    }
}
