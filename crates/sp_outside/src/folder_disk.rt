//! The disk over the files below a folder, and the names that it knows of them.
ghost use Rattle.std.specs.Prelude.{◌≡◌, ◌≤◌, false, true, None, IfErr, IfOk, IfSome, IsTrue, OnOk, if◌then◌else◌, is_ok, take};
ghost use Rattle.std.specs.FinMap.{empty};
ghost use Rattle.sp_outside.specs.Calls.{Get, Put, Remove, Names as names_call, told_call};
ghost use Rattle.sp_outside.specs.Causes.{HasDiskCause};
ghost use Rattle.sp_outside.specs.FileNames.{is_inside};
ghost use Rattle.sp_outside.specs.Files.{IsListing, IsName, IsOldOrNew, file_at, names_after, told_with, told_without};
ghost use Rattle.sp_outside.specs.FolderFiles.{HasNoFault, HasNoneLeft, IsCleaned, IsNamesOf, IsOwnKept, WhileTold, disk_files, files_held};
ghost use Rattle.sp_outside.specs.NameIndex.{IsIndex, IsRestKept};

use crate::disk::counted;
use crate::file_name::is_inside;
use crate::names::Names;
use crate::opening::{begin, has_file, names_inside, take_left};
use crate::{Disk, DiskFault, RawFiles};
use sp_base::{ByteBuf, NameList, TextBuf};
use std::alloc::Global;
use std::marker::Model;

/// Files below a folder. Its names are read at the first call, and kept. It tells its files where those below the folder are told.
///
/// A folder belongs to a boot of the machine: where its files aren't of this one, or `.epoch` isn't among them, the first call removes
/// them all. Files beside others, which a process left that was killed, are removed too.
///
/// No name leads out of the folder. A name with an empty segment, `.` or `..`, with a NUL, or with the ending of the files beside
/// names no file.
#[derive(Drop)]
pub struct FolderDisk<F: RawFiles + Drop> {
    alloc: Global,
    below: F,
    // The names that may have a file, and those of them of which a failed change has left it open.
    names: Names<()>,
    doubts: Names<()>,
    is_open: bool,
    is_known: bool,
    failed: u64,
}

impl<F: RawFiles + Drop> Model for FolderDisk<F> {
    ghost use Rattle.std.specs.Coded.{codes};
    ghost use Rattle.sp_outside.specs.Files.{files_code};
    ghost use Rattle.sp_outside.specs.FolderFiles.{FolderState};
    ghost use Rattle.sp_outside.specs.NameIndex.{IsFolderIndex};

    ghost Value = { FolderState };

    ghost coded = { Prim.hlevel (codes, files_code) };

    ghost view = { λ d. record {
      below = F.files d.below;
      faults = F.faults d.below;
      is_open = d.is_open;
      is_known = d.is_known;
      failed = d.failed;
    } };

    ghost invariant = { λ d. IsFolderIndex (F.files d.below) d.is_open d.is_known d.names d.doubts };
}

// Opening.
impl<F: RawFiles + Drop> FolderDisk<F> {
    /// The files below a folder. Nothing is opened.
    pub fn over(alloc: Global, below: F) -> FolderDisk<F>
        ensures { result ≡ record { below = F.files below; faults = F.faults below; is_open = false; is_known = false; failed = 0 } }
    {
        FolderDisk {
            alloc,
            below,
            names: Names::new(alloc),
            doubts: Names::new(alloc),
            is_open: false,
            is_known: false,
            failed: 0,
        }
    }

    /// The files below the folder.
    pub fn into_files(self) -> F
        ensures { F.files result ≡ self.below }
    {
        self.below
    }

    // Begins with the files that were found, where no call has, and says whether they are those of the disk. Else there are none.
    fn start(&mut self, found: &[TextBuf]) -> Result<bool, DiskFault>
        requires unknown { self.old.is_known ≡ false }
        requires names { IfSome self.old.below (λ files. IsNamesOf files found.now) }
        ensures same { files_held F.boot self.new ≡ files_held F.boot self.old }
        ensures begun { OnOk result (self.new.is_open ≡ true) }
        ensures kept { IfOk result (λ kept. WhileTold (λ old new. disk_files new ≡ (if kept then disk_files old else empty)) self.old.below self.new.below) }
        ensures unknown { self.new.is_known ≡ false }
        ensures count { self.new.failed ≡ self.old.failed }
        ensures rest { WhileTold IsRestKept self.old.below self.new.below }
        ensures rising { self.old.faults ≤ self.new.faults }
    {
        if self.is_open {
            return Ok(true);
        }
        let kept = begin(&mut self.below, self.alloc, found)?;
        self.is_open = true;
        Ok(kept)
    }

    // The names of the files, as they are found below the folder.
    fn names_found(&mut self) -> Result<Names<()>, DiskFault>
        requires { self.old.is_known ≡ false }
        ensures same { files_held F.boot self.new ≡ files_held F.boot self.old }
        ensures begun { OnOk result (self.new.is_open ≡ true) }
        ensures index { IfOk result (λ names. IfSome self.new.below (λ files. IsIndex (disk_files files) names empty)) }
        ensures count { self.new.failed ≡ self.old.failed }
        ensures own { WhileTold IsOwnKept self.old.below self.new.below }
        ensures left { OnOk result (HasNoFault self.old.faults self.new.faults → IfSome self.new.below HasNoneLeft) }
        ensures rising { self.old.faults ≤ self.new.faults }
    {
        let walked = self.below.walk(self.alloc)?;
        let found = walked.as_slice();
        let kept = self.start(found)?;
        take_left(&mut self.below, found);
        if kept {
            return names_inside(self.alloc, found);
        }
        Ok(Names::new(self.alloc))
    }

    // Knows the names of the files from then on.
    fn know(&mut self) -> Result<(), DiskFault>
        ensures same { files_held F.boot self.new ≡ files_held F.boot self.old }
        ensures known { OnOk result (self.new.is_known ≡ true) }
        ensures begun { OnOk result (self.new.is_open ≡ true) }
        ensures count { self.new.failed ≡ self.old.failed }
        ensures own { WhileTold IsOwnKept self.old.below self.new.below }
        ensures left { OnOk result (IsCleaned self.old self.new) }
        ensures rising { self.old.faults ≤ self.new.faults }
    {
        if self.is_known {
            return Ok(());
        }
        self.names = self.names_found()?;
        self.doubts = Names::new(self.alloc);
        self.is_known = true;
        Ok(())
    }
}

// Reading.
impl<F: RawFiles + Drop> FolderDisk<F> {
    fn find(&mut self, alloc: Global, name: &str) -> Result<Option<ByteBuf>, DiskFault>
        ensures value { IfOk result (λ found. IfSome (files_held F.boot self.old) (λ held. found ≡ file_at held name.now)) }
        ensures same { files_held F.boot self.new ≡ files_held F.boot self.old }
        ensures count { self.new.failed ≡ self.old.failed }
        ensures own { WhileTold IsOwnKept self.old.below self.new.below }
        ensures left { OnOk result (IsCleaned self.old self.new) }
    {
        self.know()?;
        if !is_inside(name) {
            return Ok(None);
        }
        if !self.names.has(name) {
            return Ok(None);
        }
        self.below.read(alloc, name)
    }

    // Looks up whether a name in doubt has a file.
    fn settle(&mut self, alloc: Global, name: &str) -> Result<(), DiskFault>
        ensures same { files_held F.boot self.new ≡ files_held F.boot self.old }
        ensures known { self.new.is_known ≡ self.old.is_known }
        ensures begun { self.new.is_open ≡ self.old.is_open }
        ensures count { self.new.failed ≡ self.old.failed }
        ensures below { self.new.below ≡ self.old.below }
        ensures rising { self.old.faults ≤ self.new.faults }
    {
        if has_file(&mut self.below, alloc, name)? {
            self.doubts.remove(name);
            return Ok(());
        }
        self.names.remove(name);
        self.doubts.remove(name);
        Ok(())
    }

    fn names_listed(
        &mut self,
        alloc: Global,
        prefix: &str,
        after: &str,
        most: usize,
    ) -> Result<NameList, DiskFault>
        ensures names { IfOk result (IsListing prefix.now after.now most) }
        ensures value { IfOk result (λ names. IfSome (files_held F.boot self.old) (λ held. names ≡ take most (names_after held prefix.now after.now))) }
        ensures same { files_held F.boot self.new ≡ files_held F.boot self.old }
        ensures count { self.new.failed ≡ self.old.failed }
        ensures own { WhileTold IsOwnKept self.old.below self.new.below }
        ensures left { OnOk result (IsCleaned self.old self.new) }
    {
        self.know()?;
        'doubts: for _ in 0..u64::MAX {
            let doubt = self.doubts.list(alloc, prefix, after, 1)?;
            match doubt.get(0) {
                None => return Ok(self.names.list(alloc, prefix, after, most)?),
                Some(name) => self.settle(alloc, name.text())?,
            }
        }
        Err(DiskFault::Failed)
    }
}

// Writing and removing.
impl<F: RawFiles + Drop> FolderDisk<F> {
    /// Writes a file, which its name leads to below the folder, else nothing.
    fn write(&mut self, name: &str, bytes: &[u8]) -> Result<(), DiskFault>
        requires { IsName name.now }
        ensures inside { OnOk result (IsTrue (is_inside name.now)) }
        ensures ok { OnOk result (files_held F.boot self.new ≡ told_with (files_held F.boot self.old) name.now bytes.now) }
        ensures err { IfErr result (IsOldOrNew (files_held F.boot self.old) (told_with (files_held F.boot self.old) name.now bytes.now) (files_held F.boot self.new)) }
        ensures count { self.new.failed ≡ self.old.failed }
        ensures own { WhileTold IsOwnKept self.old.below self.new.below }
        ensures left { OnOk result (IsCleaned self.old self.new) }
    {
        if !is_inside(name) {
            return Err(DiskFault::Failed);
        }
        self.know()?;
        self.names.insert(name, ())?;
        if let Err(fault) = self.below.replace(name, bytes) {
            // Where there is no memory for a doubt the names are found anew.
            self.is_known = self.doubts.insert(name, ()).is_ok();
            let _ = self.settle(self.alloc, name);
            return Err(fault);
        }
        self.doubts.remove(name);
        Ok(())
    }

    fn take_away(&mut self, name: &str) -> Result<(), DiskFault>
        ensures ok { OnOk result (files_held F.boot self.new ≡ told_without (files_held F.boot self.old) name.now) }
        ensures err { IfErr result (IsOldOrNew (files_held F.boot self.old) (told_without (files_held F.boot self.old) name.now) (files_held F.boot self.new)) }
        ensures count { self.new.failed ≡ self.old.failed }
        ensures own { WhileTold IsOwnKept self.old.below self.new.below }
        ensures left { OnOk result (IsCleaned self.old self.new) }
    {
        self.know()?;
        if !is_inside(name) {
            return Ok(());
        }
        if !self.names.has(name) {
            return Ok(());
        }
        if let Err(fault) = self.below.unlink(name) {
            self.is_known = self.doubts.insert(name, ()).is_ok();
            return Err(fault);
        }
        self.names.remove(name);
        self.doubts.remove(name);
        Ok(())
    }
}

impl<F: RawFiles + Drop> Disk for FolderDisk<F> {
    ghost faults = { λ d. d.failed };

    ghost files = { λ d. files_held F.boot d };

    ghost calls = { λ _. None };

    fn get(&mut self, alloc: Global, name: &str) -> Result<Option<ByteBuf>, DiskFault>
        ensures own { WhileTold IsOwnKept self.old.below self.new.below }
        ensures left { OnOk result (IsCleaned self.old self.new) }

        // What every disk promises.
        ensures value { IfOk result (λ found. IfSome (files_held F.boot self.old) (λ held. found ≡ file_at held name.now)) }
        ensures same { files_held F.boot self.new ≡ files_held F.boot self.old }
        ensures cause { HasDiskCause self.old.failed self.new.failed result }
        ensures made { None ≡ told_call None (Get name.now (is_ok result)) }
    {
        let found = self.find(alloc, name);
        counted(&mut self.failed, found)
    }

    fn put(&mut self, name: &str, bytes: &[u8]) -> Result<(), DiskFault>
        requires { IsName name.now }
        ensures own { WhileTold IsOwnKept self.old.below self.new.below }
        ensures left { OnOk result (IsCleaned self.old self.new) }

        // What every disk promises.
        ensures ok { OnOk result (files_held F.boot self.new ≡ told_with (files_held F.boot self.old) name.now bytes.now) }
        ensures err { IfErr result (IsOldOrNew (files_held F.boot self.old) (told_with (files_held F.boot self.old) name.now bytes.now) (files_held F.boot self.new)) }
        ensures cause { HasDiskCause self.old.failed self.new.failed result }
        ensures made { None ≡ told_call None (Put name.now bytes.now (is_ok result)) }
    {
        let written = self.write(name, bytes);
        counted(&mut self.failed, written)
    }

    fn remove(&mut self, name: &str) -> Result<(), DiskFault>
        ensures own { WhileTold IsOwnKept self.old.below self.new.below }
        ensures left { OnOk result (IsCleaned self.old self.new) }

        // What every disk promises.
        ensures ok { OnOk result (files_held F.boot self.new ≡ told_without (files_held F.boot self.old) name.now) }
        ensures err { IfErr result (IsOldOrNew (files_held F.boot self.old) (told_without (files_held F.boot self.old) name.now) (files_held F.boot self.new)) }
        ensures fails { IfErr result (λ e. e ≡ DiskFault.Failed) }
        ensures cause { HasDiskCause self.old.failed self.new.failed result }
        ensures made { None ≡ told_call None (Remove name.now (is_ok result)) }
    {
        match self.take_away(name) {
            Ok(()) => Ok(()),
            Err(_) => counted(&mut self.failed, Err(DiskFault::Failed)),
        }
    }

    fn list(
        &mut self,
        alloc: Global,
        prefix: &str,
        after: &str,
        most: usize,
    ) -> Result<NameList, DiskFault>
        ensures own { WhileTold IsOwnKept self.old.below self.new.below }
        ensures left { OnOk result (IsCleaned self.old self.new) }

        // What every disk promises.
        ensures names { IfOk result (IsListing prefix.now after.now most) }
        ensures value { IfOk result (λ names. IfSome (files_held F.boot self.old) (λ held. names ≡ take most (names_after held prefix.now after.now))) }
        ensures same { files_held F.boot self.new ≡ files_held F.boot self.old }
        ensures cause { HasDiskCause self.old.failed self.new.failed result }
        ensures made { None ≡ told_call None (names_call prefix.now after.now most (is_ok result)) }
    {
        let names = self.names_listed(alloc, prefix, after, most);
        counted(&mut self.failed, names)
    }
}
