//! Disks: where files are kept by their names.
ghost use Rattle.std.specs.Prelude.{◌≡◌, ℕ, List, Option, IfSome, IfOk, IfErr, OnOk, is_ok, take};
ghost use Rattle.sp_outside.specs.Files.{Files, IsName, IsListing, IsOldOrNew, file_at, told_with, told_without, names_after};
ghost use Rattle.sp_outside.specs.Causes.{HasDiskCause};
ghost use Rattle.sp_outside.specs.Calls.{Call, Get, Put, Remove, Names, told_call};
ghost use Rattle.sp_outside.specs.declared.disk.DiskFault.TheVariants.{NoMemory as out_of_memory};

use sp_base::{ByteBuf, NameList, NoMemory};
use std::alloc::{AllocError, Global};

/// The most bytes of a file's name.
pub const LONGEST_FILE_NAME: usize = 16_384;

#[derive(Clone, Copy, PartialEq, Eq, Debug, Drop)]
pub enum DiskFault {
    Failed,
    NoMemory,
}

impl From<NoMemory> for DiskFault {
    ghost from_gives = { λ _ e. e ≡ out_of_memory };

    fn from(_fault: NoMemory) -> DiskFault {
        DiskFault::NoMemory
    }
}

impl From<AllocError> for DiskFault {
    ghost from_gives = { λ _ e. e ≡ out_of_memory };

    fn from(_fault: AllocError) -> DiskFault {
        DiskFault::NoMemory
    }
}

/// Counts an answer that is a fault.
pub(crate) fn counted<T: Drop>(
    failed: &mut u64,
    answer: Result<T, DiskFault>,
) -> Result<T, DiskFault>
    ensures same { result ≡ answer }
    ensures cause { HasDiskCause failed.old failed.new result }
{
    match answer {
        Ok(value) => Ok(value),
        Err(DiskFault::Failed) => {
            *failed = failed.saturating_add(1);
            Err(DiskFault::Failed)
        }
        Err(DiskFault::NoMemory) => Err(DiskFault::NoMemory),
    }
}

/// Files by their names. After a `put` or `remove` that fails the files are those from before, or those with this one
/// change whole.
pub trait Disk {
    /// How often a call has failed.
    ghost faults: { Self → ℕ };

    /// The files, where the disk tells them.
    ghost files: { Self → Option Files };

    /// The calls that were made of the disk and whether each was answered Ok, the last one at the end, where it tells them.
    ghost calls: { Self → Option (List Call) };

    /// The bytes of a file, or None where there is none of this name.
    fn get(&mut self, alloc: Global, name: &str) -> Result<Option<ByteBuf>, DiskFault>
        ensures value { IfOk result (λ found. IfSome (files self.old) (λ held. found ≡ file_at held name.now)) }
        ensures same { files self.new ≡ files self.old }
        ensures cause { HasDiskCause (faults self.old) (faults self.new) result }
        ensures made { calls self.new ≡ told_call (calls self.old) (Get name.now (is_ok result)) };

    /// Makes the file of this name exactly these bytes.
    fn put(&mut self, name: &str, bytes: &[u8]) -> Result<(), DiskFault>
        requires { IsName name.now }
        ensures ok { OnOk result (files self.new ≡ told_with (files self.old) name.now bytes.now) }
        ensures err { IfErr result (IsOldOrNew (files self.old) (told_with (files self.old) name.now bytes.now) (files self.new)) }
        ensures cause { HasDiskCause (faults self.old) (faults self.new) result }
        ensures made { calls self.new ≡ told_call (calls self.old) (Put name.now bytes.now (is_ok result)) };

    /// Takes the file of this name away, if there is one. This takes no memory, but for what a disk keeps of names from its first call on.
    fn remove(&mut self, name: &str) -> Result<(), DiskFault>
        ensures ok { OnOk result (files self.new ≡ told_without (files self.old) name.now) }
        ensures err { IfErr result (IsOldOrNew (files self.old) (told_without (files self.old) name.now) (files self.new)) }
        ensures fails { IfErr result (λ e. e ≡ DiskFault.Failed) }
        ensures cause { HasDiskCause (faults self.old) (faults self.new) result }
        ensures made { calls self.new ≡ told_call (calls self.old) (Remove name.now (is_ok result)) };

    /// The first names, at most `most`, that begin with a prefix and are greater than `after`, in the order of their bytes.
    fn list(
        &mut self,
        alloc: Global,
        prefix: &str,
        after: &str,
        most: usize,
    ) -> Result<NameList, DiskFault>
        ensures names { IfOk result (IsListing prefix.now after.now most) }
        ensures value { IfOk result (λ names. IfSome (files self.old) (λ held. names ≡ take most (names_after held prefix.now after.now))) }
        ensures same { files self.new ≡ files self.old }
        ensures cause { HasDiskCause (faults self.old) (faults self.new) result }
        ensures made { calls self.new ≡ told_call (calls self.old) (Names prefix.now after.now most (is_ok result)) };
}
