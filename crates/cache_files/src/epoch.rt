//! The number of a session, by which stamps of different sessions are told apart.
ghost use Rattle.std.specs.Prelude.{◌≡◌, ◌≢◌, Ok, Err, IfOk, IfErr, IfSome, Some};
ghost use Rattle.cache_files.specs.FaultTexts.{open_fault_text};
ghost use Rattle.sp_outside.specs.Calls.{told_calls};
ghost use Rattle.cache_files.specs.Epochs.{epoch_after, next_epoch, open_calls, open_fault, told_with_epoch, HasOpenCause, IsOpenLeft};
ghost use Rattle.cache_files.specs.declared.epoch.OpenFault.TheVariants.{NoMemory as out_of_memory};

use docroot_format::{EPOCH_NAME, epoch_in, epoch_text};
use sp_base::{ByteBuf, NoMemory};
use sp_outside::{Disk, DiskFault};
use std::alloc::Global;
use std::fmt;

/// Why no session begins.
#[derive(Clone, Copy, PartialEq, Eq, Debug, Drop)]
pub enum OpenFault {
    /// The disk failed.
    Disk,
    /// The file has bytes of another form.
    Foreign,
    /// The file holds the greatest number.
    EpochEnd,
    NoMemory,
}

impl fmt::Display for OpenFault {
    ghost output = { λ fault. Some (open_fault_text fault) };

    fn fmt<W: fmt::Write>(&self, f: &mut fmt::Formatter<W>) -> fmt::Result {
        match self {
            OpenFault::Disk => f.write_str("docroot failed"),
            OpenFault::Foreign => f.write_str("docroot foreign"),
            OpenFault::EpochEnd => f.write_str("epoch at its end"),
            OpenFault::NoMemory => f.write_str("Out of memory"),
        }
    }
}

impl From<NoMemory> for OpenFault {
    ghost from_gives = { λ _ e. e ≡ out_of_memory };

    fn from(_fault: NoMemory) -> OpenFault {
        OpenFault::NoMemory
    }
}

impl From<DiskFault> for OpenFault {
    ghost from_gives = { λ fault e. e ≡ open_fault fault };

    fn from(fault: DiskFault) -> OpenFault {
        match fault {
            DiskFault::Failed => OpenFault::Disk,
            DiskFault::NoMemory => OpenFault::NoMemory,
        }
    }
}

fn epoch_after(found: Option<ByteBuf>) -> Result<u64, OpenFault>
    ensures { result ≡ epoch_after found }
{
    let Some(bytes) = found else {
        return Ok(1);
    };
    let Some(epoch) = epoch_in(bytes.bytes()) else {
        return Err(OpenFault::Foreign);
    };
    if epoch == u64::MAX {
        return Err(OpenFault::EpochEnd);
    }
    Ok(epoch + 1)
}

/// Begins a session: reads the number of the last one, writes it one higher, and answers that. The first is 1.
pub fn open_epoch<D: Disk>(alloc: Global, disk: &mut D) -> Result<u64, OpenFault>
    ensures ok { IfOk result (λ epoch. IfSome (D.files disk.old) (λ files. next_epoch files ≡ Ok epoch)) }
    ensures err { IfErr result (λ e. e ≢ OpenFault.NoMemory → e ≢ OpenFault.Disk → IfSome (D.files disk.old) (λ files. next_epoch files ≡ Err e)) }

    // The calls of the disk are these alone, and the files change only by the number that an Ok answers.
    ensures made { IfOk result (λ epoch. D.calls disk.new ≡ told_calls (D.calls disk.old) (open_calls epoch)) }
    ensures after { IfOk result (λ epoch. D.files disk.new ≡ told_with_epoch (D.files disk.old) epoch) }
    ensures left { IfErr result (IsOpenLeft (D.calls disk.old) (D.calls disk.new) (D.files disk.old) (D.files disk.new)) }
    ensures cause { HasOpenCause (D.faults disk.old) (D.faults disk.new) result }
{
    let found = disk.get(alloc, EPOCH_NAME)?;
    let epoch = epoch_after(found)?;
    let text = epoch_text(alloc, epoch)?;
    disk.put(EPOCH_NAME, text.text().as_bytes())?;
    Ok(epoch)
}
