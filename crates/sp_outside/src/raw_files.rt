//! The files below a folder, as a system keeps them.
ghost use Rattle.std.specs.Prelude.{◌≡◌, ℕ, List, Option, IfSome, IfOk, IfErr, IsTrue, OnOk};
ghost use Rattle.sp_outside.specs.Causes.{HasDiskCause};
ghost use Rattle.sp_outside.specs.FileNames.{is_below};
ghost use Rattle.sp_outside.specs.Files.{Files, IsName, IsOldOrNew, file_at, told_with, told_without};
ghost use Rattle.sp_outside.specs.FolderFiles.{IsNamesOf};

use crate::DiskFault;
use sp_base::{ByteBuf, Mem, NameList};
use std::alloc::Global;

/// The files below a folder by their names, whose pieces between slashes are the folders on the way. After a `replace` or `unlink`
/// that fails the files are those from before, or those with this one change whole.
///
/// Nobody else changes them. A `walk` comes first, which makes the folder, where it isn't there, and keeps others out of it.
pub trait RawFiles {
    /// The id that the system gave this boot of the machine, where it tells one.
    ghost boot: { Option (List ℕ) };

    /// How often a call has failed.
    ghost faults: { Self → ℕ };

    /// The files below the folder, where they are told.
    ghost files: { Self → Option Files };

    /// The bytes of a file, or None where there is none of this name.
    fn read(&mut self, alloc: Global, name: &str) -> Result<Option<ByteBuf>, DiskFault>
        requires { IsTrue (is_below name.now) }
        ensures value { IfOk result (λ found. IfSome (files self.old) (λ held. found ≡ file_at held name.now)) }
        ensures same { files self.new ≡ files self.old }
        ensures cause { HasDiskCause (faults self.old) (faults self.new) result };

    /// Makes the file of this name exactly these bytes, with the folders on the way, at one moment.
    fn replace(&mut self, name: &str, bytes: &[u8]) -> Result<(), DiskFault>
        requires below { IsTrue (is_below name.now) }
        requires size { IsName name.now }
        ensures ok { OnOk result (files self.new ≡ told_with (files self.old) name.now bytes.now) }
        ensures err { IfErr result (IsOldOrNew (files self.old) (told_with (files self.old) name.now bytes.now) (files self.new)) }
        ensures cause { HasDiskCause (faults self.old) (faults self.new) result };

    /// Takes the file of this name away, if there is one. This takes no memory.
    fn unlink(&mut self, name: &str) -> Result<(), DiskFault>
        requires { IsTrue (is_below name.now) }
        ensures ok { OnOk result (files self.new ≡ told_without (files self.old) name.now) }
        ensures err { IfErr result (IsOldOrNew (files self.old) (told_without (files self.old) name.now) (files self.new)) }
        ensures fails { IfErr result (λ e. e ≡ DiskFault.Failed) }
        ensures cause { HasDiskCause (faults self.old) (faults self.new) result };

    /// The names of all files, in any order.
    fn walk(&mut self, alloc: Global) -> Result<NameList, DiskFault>
        ensures value { IfOk result (λ names. IfSome (files self.old) (λ held. IsNamesOf held names)) }
        ensures same { files self.new ≡ files self.old }
        ensures cause { HasDiskCause (faults self.old) (faults self.new) result };

    /// The id of this boot, or None where the system doesn't tell it.
    fn boot_id(&self, alloc: Global) -> Mem<Option<ByteBuf>>
        ensures { IfOk result (λ id. IfSome (files self.now) (λ _. id ≡ boot)) };
}
