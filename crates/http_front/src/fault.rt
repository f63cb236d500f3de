//! Why a stream is read no further.
ghost use Rattle.std.specs.Prelude.{◌≡◌, Some};
ghost use Rattle.http_front.specs.FaultTexts.{in_fault_text};
ghost use Rattle.http_front.specs.Faults.{fault_status};

use sp_base::NoMemory as OutOfMemory;
use std::alloc::AllocError;
use std::fmt;

/// The status where no memory was there (RFC 4918, section 11.5).
pub const INSUFFICIENT_STORAGE: u16 = 507;

/// Why a stream is read no further. Of several that a head has the first counts.
#[derive(Clone, Copy, Debug, Drop)]
pub enum InFault {
    /// The bytes begin no head, or the Host fields name no host (RFC 9112, sections 2 to 5; RFC 9110, section 7.2).
    BadHead,
    /// There are more than 100 fields (RFC 6585, section 5).
    ManyHeaders,
    /// The target isn't a path of the origin form (RFC 9112, section 3.2.1).
    BadTarget,
    /// A Transfer-Encoding is there, so Content-Length doesn't tell the body's length (RFC 9110, section 15.5.12).
    NoLength,
    /// There are two Content-Length fields, or one that isn't 1 to 18 digits (RFC 9110, section 8.6).
    BadLength,
    /// The body has more than 8,388,608 bytes (RFC 9110, section 15.5.14).
    LongBody,
    /// 16,384 bytes hold no whole head (RFC 6585, section 5).
    LongHead,
    /// The stream can be read on once memory is there.
    NoMemory,
}

impl fmt::Display for InFault {
    ghost output = { λ fault. Some (in_fault_text fault) };

    fn fmt<W: fmt::Write>(&self, f: &mut fmt::Formatter<W>) -> fmt::Result {
        match self {
            InFault::BadHead => f.write_str("BadHead"),
            InFault::ManyHeaders => f.write_str("ManyHeaders"),
            InFault::BadTarget => f.write_str("BadTarget"),
            InFault::NoLength => f.write_str("NoLength"),
            InFault::BadLength => f.write_str("BadLength"),
            InFault::LongBody => f.write_str("LongBody"),
            InFault::LongHead => f.write_str("LongHead"),
            InFault::NoMemory => f.write_str("Out of memory"),
        }
    }
}

impl InFault {
    /// The status code that the fault is answered with.
    pub fn status(self) -> u16
        ensures { result ≡ fault_status self }
    {
        match self {
            InFault::BadHead | InFault::BadTarget | InFault::BadLength => 400,
            InFault::NoLength => 411,
            InFault::LongBody => 413,
            InFault::ManyHeaders | InFault::LongHead => 431,
            InFault::NoMemory => INSUFFICIENT_STORAGE,
        }
    }
}

impl From<OutOfMemory> for InFault {
    ghost use Rattle.http_front.specs.declared.fault.InFault.TheVariants.{NoMemory};

    ghost from_gives = { λ _ e. e ≡ NoMemory };

    fn from(_fault: OutOfMemory) -> InFault {
        InFault::NoMemory
    }
}

impl From<AllocError> for InFault {
    ghost use Rattle.http_front.specs.declared.fault.InFault.TheVariants.{NoMemory};

    ghost from_gives = { λ _ e. e ≡ NoMemory };

    fn from(_fault: AllocError) -> InFault {
        InFault::NoMemory
    }
}
