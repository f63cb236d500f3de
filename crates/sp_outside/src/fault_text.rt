//! How the faults of sources, sinks and disks are written.
ghost use Rattle.std.specs.Prelude.{Some};
ghost use Rattle.sp_outside.specs.FaultTexts.{source_fault_text, sink_fault_text, disk_fault_text};

use crate::disk::DiskFault;
use crate::sink::SinkFault;
use crate::source::SourceFault;
use std::fmt;

impl fmt::Display for SourceFault {
    ghost output = { λ fault. Some (source_fault_text fault) };

    fn fmt<W: fmt::Write>(&self, f: &mut fmt::Formatter<W>) -> fmt::Result {
        match self {
            SourceFault::Failed => f.write_str("source failed"),
        }
    }
}

impl fmt::Display for SinkFault {
    ghost output = { λ fault. Some (sink_fault_text fault) };

    fn fmt<W: fmt::Write>(&self, f: &mut fmt::Formatter<W>) -> fmt::Result {
        match self {
            SinkFault::Failed => f.write_str("sink failed"),
            SinkFault::NoMemory => f.write_str("Out of memory"),
        }
    }
}

impl fmt::Display for DiskFault {
    ghost output = { λ fault. Some (disk_fault_text fault) };

    fn fmt<W: fmt::Write>(&self, f: &mut fmt::Formatter<W>) -> fmt::Result {
        match self {
            DiskFault::Failed => f.write_str("disk failed"),
            DiskFault::NoMemory => f.write_str("Out of memory"),
        }
    }
}
