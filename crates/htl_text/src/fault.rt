//! Why a template could not be read, or not be rendered.

ghost use Rattle.std.specs.Prelude.{◌≡◌, Some};
ghost use Rattle.htl_text.specs.FaultTexts.{template_fault_text, render_fault_text};
ghost use Rattle.htl_text.specs.declared.fault.TextFault.TheVariants as text;
ghost use Rattle.htl_text.specs.declared.fault.RenderFault.TheVariants as render;

use sp_base::NoMemory;
use std::alloc::{AllocError, AllocFailed};
use std::fmt;

/// Why a text is no template. A place is that of the `$`, counted in bytes from 0.
#[derive(Drop)]
pub enum TextFault {
    /// No `}` outside quotes closes the expression.
    Unclosed(usize),
    /// What stands between the braces is no expression.
    BadExpr(usize),
    NoMemory,
}

impl fmt::Display for TextFault {
    ghost output = { λ fault. Some (template_fault_text fault) };

    fn fmt<W: fmt::Write>(&self, f: &mut fmt::Formatter<W>) -> fmt::Result {
        match self {
            TextFault::Unclosed(at) => write!(f, "Unclosed at {at}"),
            TextFault::BadExpr(at) => write!(f, "BadExpr at {at}"),
            TextFault::NoMemory => f.write_str("Out of memory"),
        }
    }
}

impl From<NoMemory> for TextFault {
    ghost from_gives = { λ _ e. e ≡ text.NoMemory };

    fn from(_fault: NoMemory) -> TextFault {
        TextFault::NoMemory
    }
}

impl From<AllocError> for TextFault {
    ghost from_gives = { λ _ e. e ≡ text.NoMemory };

    fn from(_fault: AllocError) -> TextFault {
        TextFault::NoMemory
    }
}

impl<T: Drop> From<AllocFailed<T>> for TextFault {
    ghost from_gives = { λ _ e. e ≡ text.NoMemory };

    fn from(_fault: AllocFailed<T>) -> TextFault {
        TextFault::NoMemory
    }
}

/// Why a template writes no text.
#[derive(Drop)]
pub enum RenderFault {
    /// The text would have more than 4,194,304 bytes.
    TooLong,
    NoMemory,
}

impl fmt::Display for RenderFault {
    ghost output = { λ fault. Some (render_fault_text fault) };

    fn fmt<W: fmt::Write>(&self, f: &mut fmt::Formatter<W>) -> fmt::Result {
        match self {
            RenderFault::TooLong => f.write_str("TooLong"),
            RenderFault::NoMemory => f.write_str("Out of memory"),
        }
    }
}

impl From<NoMemory> for RenderFault {
    ghost from_gives = { λ _ e. e ≡ render.NoMemory };

    fn from(_fault: NoMemory) -> RenderFault {
        RenderFault::NoMemory
    }
}

impl From<AllocError> for RenderFault {
    ghost from_gives = { λ _ e. e ≡ render.NoMemory };

    fn from(_fault: AllocError) -> RenderFault {
        RenderFault::NoMemory
    }
}
