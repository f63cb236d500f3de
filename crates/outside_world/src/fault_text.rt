//! How the faults of the outside are written.
ghost use Rattle.std.specs.Prelude.{Some};
ghost use Rattle.outside_world.specs.FaultTexts.{input_fault_text, world_fault_text, send_fault_text};

use crate::inputs::InputFault;
use crate::world::{SendFault, WorldFault};
use std::fmt;

impl fmt::Display for InputFault {
    ghost output = { λ fault. Some (input_fault_text fault) };

    fn fmt<W: fmt::Write>(&self, f: &mut fmt::Formatter<W>) -> fmt::Result {
        match self {
            InputFault::Failed => f.write_str("input failed"),
            InputFault::TooLong => f.write_str("input too long"),
            InputFault::NoMemory => Ok(()),
        }
    }
}

impl fmt::Display for WorldFault {
    ghost output = { λ fault. Some (world_fault_text fault) };

    fn fmt<W: fmt::Write>(&self, f: &mut fmt::Formatter<W>) -> fmt::Result {
        match self {
            WorldFault::Failed => f.write_str("world failed"),
            WorldFault::NoMemory => f.write_str("Out of memory"),
        }
    }
}

impl fmt::Display for SendFault {
    ghost output = { λ fault. Some (send_fault_text fault) };

    fn fmt<W: fmt::Write>(&self, f: &mut fmt::Formatter<W>) -> fmt::Result {
        match self {
            SendFault::Failed => f.write_str("sending failed"),
            SendFault::NoMemory => f.write_str("Out of memory"),
        }
    }
}
