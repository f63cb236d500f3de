//! Why a script has no reading.

ghost use Rattle.std.specs.Prelude.{◌≡◌, Some};
ghost use Rattle.htl_blocks.specs.FaultTexts.{block_fault_text};
ghost use Rattle.htl_blocks.specs.declared.fault.BlockFault.TheVariants as fault;

use htl_text::TextFault;
use sp_base::NoMemory;
use std::alloc::{AllocError, AllocFailed};
use std::fmt;

/// Why a text has no blocks. A place is counted in bytes from 0; that of a tag is the place of its `<`.
#[derive(Drop)]
pub enum BlockFault {
    /// A block tag without its `>`, or without its end tag.
    OpenTag(usize),
    /// A tag with a `data-sly-` attribute that is none or is given twice, or whose value has no reading.
    BadBlock(usize),
    /// A block tag that would be nested deeper than 32.
    TooDeep(usize),
    /// A template's fault, with its place in the whole text; of a start tag, the place of the tag.
    Text(TextFault),
    NoMemory,
}

impl fmt::Display for BlockFault {
    ghost output = { λ fault. Some (block_fault_text fault) };

    fn fmt<W: fmt::Write>(&self, f: &mut fmt::Formatter<W>) -> fmt::Result {
        match self {
            BlockFault::OpenTag(at) => write!(f, "OpenTag at {at}"),
            BlockFault::BadBlock(at) => write!(f, "BadBlock at {at}"),
            BlockFault::TooDeep(at) => write!(f, "TooDeep at {at}"),
            BlockFault::Text(fault) => write!(f, "{fault}"),
            BlockFault::NoMemory => f.write_str("Out of memory"),
        }
    }
}

impl From<NoMemory> for BlockFault {
    ghost from_gives = { λ _ e. e ≡ fault.NoMemory };

    fn from(_fault: NoMemory) -> BlockFault {
        BlockFault::NoMemory
    }
}

impl From<AllocError> for BlockFault {
    ghost from_gives = { λ _ e. e ≡ fault.NoMemory };

    fn from(_fault: AllocError) -> BlockFault {
        BlockFault::NoMemory
    }
}

impl<T: Drop> From<AllocFailed<T>> for BlockFault {
    ghost from_gives = { λ _ e. e ≡ fault.NoMemory };

    fn from(_fault: AllocFailed<T>) -> BlockFault {
        BlockFault::NoMemory
    }
}
