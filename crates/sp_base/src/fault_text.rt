//! How the faults of paths and values are written.
ghost use Rattle.std.specs.Prelude.{Some};
ghost use Rattle.sp_base.specs.FaultTexts.{path_fault_text, value_fault_text};

use crate::hint::ValueFault;
use crate::path::PathFault;
use std::fmt;

impl fmt::Display for PathFault {
    ghost output = { λ fault. Some (path_fault_text fault) };

    fn fmt<W: fmt::Write>(&self, f: &mut fmt::Formatter<W>) -> fmt::Result {
        match self {
            PathFault::NotAbsolute => f.write_str("NotAbsolute"),
            PathFault::EmptySegment => f.write_str("EmptySegment"),
            PathFault::DotSegment => f.write_str("DotSegment"),
            PathFault::LongSegment(at) => write!(f, "LongSegment at {at}"),
            PathFault::TooDeep => f.write_str("TooDeep"),
            PathFault::NoMemory => f.write_str("Out of memory"),
        }
    }
}

impl fmt::Display for ValueFault {
    ghost output = { λ fault. Some (value_fault_text fault) };

    fn fmt<W: fmt::Write>(&self, f: &mut fmt::Formatter<W>) -> fmt::Result {
        match self {
            ValueFault::WrongCount(count) => write!(f, "WrongCount {count}"),
            ValueFault::NotANumber(at) => write!(f, "NotANumber at {at}"),
            ValueFault::NoMemory => f.write_str("Out of memory"),
        }
    }
}
