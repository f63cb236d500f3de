// Why content is refused.
ghost use Rattle.std.specs.Prelude.{Some};
ghost use Rattle.content_json.specs.FaultTexts.{fault_text};

use sp_base::{NoMemory, Path};
use std::alloc::AllocError;
use std::fmt;

/// Why bytes are no content. A path of more than 64 segments is cut to its first 64.
#[derive(Drop)]
pub enum ContentFault {
    /// The bytes are no JSON text (RFC 8259), a number in it is too large for a double, or it nests
    /// deeper than 127.
    NotJson,
    /// The top of the text isn't an object.
    NotObject,
    /// A name in the object at the path is no segment of a path, or begins with `:` and isn't `:order`.
    BadName(Path),
    /// The member at the path is a number that isn't an integer of 64 bits with a sign, or an array
    /// whose first bad item is one.
    BadNumber(Path),
    /// The member at the path is an array whose first bad item is of another kind than the first.
    MixedArray(Path),
    /// The member `:order` of the object at the path isn't an array of distinct names of its kids.
    BadOrder(Path),
    /// There are more than 200,000 nodes, or one below 64 levels.
    TooBig,
    NoMemory,
}

impl fmt::Display for ContentFault {
    ghost output = { λ fault. Some (fault_text fault) };

    fn fmt<W: fmt::Write>(&self, f: &mut fmt::Formatter<W>) -> fmt::Result {
        match self {
            ContentFault::NotJson => f.write_str("NotJson"),
            ContentFault::NotObject => f.write_str("NotObject"),
            ContentFault::BadName(path) => write!(f, "BadName at {}", path.as_text()),
            ContentFault::BadNumber(path) => write!(f, "BadNumber at {}", path.as_text()),
            ContentFault::MixedArray(path) => write!(f, "MixedArray at {}", path.as_text()),
            ContentFault::BadOrder(path) => write!(f, "BadOrder at {}", path.as_text()),
            ContentFault::TooBig => f.write_str("TooBig"),
            ContentFault::NoMemory => Ok(()),
        }
    }
}

impl From<NoMemory> for ContentFault {
    ghost use Rattle.std.specs.Prelude.{◌≡◌};
    ghost use Rattle.content_json.specs.declared.fault.ContentFault.{ContentFault};

    ghost from_gives = { λ _ fault. fault ≡ ContentFault.NoMemory };

    fn from(_fault: NoMemory) -> ContentFault {
        ContentFault::NoMemory
    }
}

impl From<AllocError> for ContentFault {
    ghost use Rattle.std.specs.Prelude.{◌≡◌};
    ghost use Rattle.content_json.specs.declared.fault.ContentFault.{ContentFault};

    ghost from_gives = { λ _ fault. fault ≡ ContentFault.NoMemory };

    fn from(_fault: AllocError) -> ContentFault {
        ContentFault::NoMemory
    }
}

/// What is against a member.
#[derive(Clone, Copy, PartialEq, Eq, Debug, Drop)]
pub(crate) enum Cause {
    BadName,
    BadNumber,
    MixedArray,
    BadOrder,
}

/// A fault, and its place below the value that is looked at.
#[derive(Drop)]
pub(crate) struct Found {
    pub(crate) cause: Cause,
    pub(crate) place: Path,
}
