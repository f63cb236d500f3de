//! Writing within a limit.

ghost use Rattle.std.specs.Prelude.{◌≡◌, ◌≤◌, string_bytes, length, Some};
ghost use Rattle.htl_expr.specs.FaultTexts.{write_fault_text};
ghost use Rattle.htl_expr.specs.Writing.{Wrote};
ghost use Rattle.htl_expr.specs.declared.room.WriteFault.TheVariants as fault;

use sp_base::NoMemory;
use std::alloc::AllocError;
use std::fmt;

/// Why a text was not written.
#[derive(Drop)]
pub enum WriteFault {
    /// What stands there and the text would have more bytes than the limit.
    TooLong,
    NoMemory,
}

impl fmt::Display for WriteFault {
    ghost output = { λ fault. Some (write_fault_text fault) };

    fn fmt<W: fmt::Write>(&self, f: &mut fmt::Formatter<W>) -> fmt::Result {
        match self {
            WriteFault::TooLong => f.write_str("TooLong"),
            WriteFault::NoMemory => f.write_str("Out of memory"),
        }
    }
}

impl From<NoMemory> for WriteFault {
    ghost from_gives = { λ _ e. e ≡ fault.NoMemory };

    fn from(_fault: NoMemory) -> WriteFault {
        WriteFault::NoMemory
    }
}

impl From<AllocError> for WriteFault {
    ghost from_gives = { λ _ e. e ≡ fault.NoMemory };

    fn from(_fault: AllocError) -> WriteFault {
        WriteFault::NoMemory
    }
}

/// Writes a text where there is room for it.
pub(crate) fn push_within(text: &mut String, most: usize, more: &str) -> Result<(), WriteFault>
    requires { length (string_bytes text.old) ≤ most }
    ensures { Wrote most result (string_bytes text.old) more.now (string_bytes text.new) }
{
    if more.len() > most - text.as_str().len() {
        return Err(WriteFault::TooLong);
    }
    text.push_str(more)?;
    Ok(())
}
