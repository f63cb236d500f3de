//! Why a file of the docroot couldn't be read or written.
ghost use Rattle.std.specs.Prelude.{◌≡◌, Some};
ghost use Rattle.docroot_format.specs.FaultTexts.{file_fault_text};
ghost use Rattle.docroot_format.specs.Faults.{disk_file_fault};
ghost use Rattle.docroot_format.specs.declared.fault.FileFault.TheVariants.{NoMemory as out_of_memory};

use sp_base::NoMemory;
use sp_outside::DiskFault;
use std::fmt;

#[derive(Clone, Copy, PartialEq, Eq, Debug, Drop)]
pub enum FileFault {
    /// The disk failed.
    Disk,
    NoMemory,
}

impl fmt::Display for FileFault {
    ghost output = { λ fault. Some (file_fault_text fault) };

    fn fmt<W: fmt::Write>(&self, f: &mut fmt::Formatter<W>) -> fmt::Result {
        match self {
            FileFault::Disk => f.write_str("disk failed"),
            FileFault::NoMemory => f.write_str("Out of memory"),
        }
    }
}

impl From<NoMemory> for FileFault {
    ghost from_gives = { λ _ e. e ≡ out_of_memory };

    fn from(_fault: NoMemory) -> FileFault {
        FileFault::NoMemory
    }
}

impl From<DiskFault> for FileFault {
    ghost from_gives = { λ fault e. e ≡ disk_file_fault fault };

    fn from(fault: DiskFault) -> FileFault {
        match fault {
            DiskFault::Failed => FileFault::Disk,
            DiskFault::NoMemory => FileFault::NoMemory,
        }
    }
}
