//! A disk in memory, which tells its files, and of which a chosen call fails, or every call from one on.
ghost use Rattle.std.specs.Prelude.{◌≡◌, IfOk, IfErr, OnOk, is_ok, OnErr, Some, None, take};
ghost use Rattle.std.specs.FinMap.{empty};
ghost use Rattle.sp_outside.specs.Files.{IsName, IsListing, IsOldOrNew, file_at, with_file, without_file, names_after};
ghost use Rattle.sp_outside.specs.FolderFiles.{IsNamesOf};
ghost use Rattle.sp_outside.specs.DiskMemory.{IsPlanned, IsPlannedPut, next_fails, plan_after, plan_gone, read_after, write_after};
ghost use Rattle.sp_outside.specs.Calls.{Get, Put, Remove, Names as names_call, told_call};
ghost use Rattle.sp_outside.specs.Causes.{HasDiskCause, Rose, next};

use crate::names::Names;
use crate::{Disk, DiskFault};
use sp_base::{ByteBuf, Mem, NameList};
use std::alloc::Global;
use std::marker::Model;

/// What a call that fails leaves of its change.
#[derive(Clone, Copy, Drop)]
pub enum Way {
    /// The files are as before.
    Old,
    /// The change is made.
    New,
}

/// Which of the next calls fail, counted from 1. A count of 0 names no call.
#[derive(Clone, Copy, Drop)]
pub enum Plan {
    Never,
    /// This one alone.
    Once(u64, Way),
    /// This one, and every later one.
    From(u64, Way),
    /// Every one, and the files are as before.
    Stopped,
}

/// Files in memory. A call that fails counts as one; the counts stand still at their type's end.
#[derive(Drop)]
pub struct MemDisk {
    alloc: Global,
    files: Names<ByteBuf>,
    plan: Plan,
    calls: u64,
    failed: u64,
}

impl Model for MemDisk {
    ghost use Rattle.std.specs.Coded.{codes};
    ghost use Rattle.sp_outside.specs.DiskMemory.{DiskState};
    ghost use Rattle.sp_outside.specs.Files.{files_code};

    ghost Value = { DiskState };

    ghost coded = { Prim.hlevel (codes, files_code) };

    ghost view = { λ d. record {
      files = d.files;
      plan = d.plan;
      calls = d.calls;
      failed = d.failed;
    } };
}

impl MemDisk {
    /// Empty, and no call fails.
    pub fn new(alloc: Global) -> MemDisk
        ensures { result ≡ record { files = empty; plan = Plan.Never; calls = 0; failed = 0 } }
    {
        MemDisk {
            alloc,
            files: Names::new(alloc),
            plan: Plan::Never,
            calls: 0,
            failed: 0,
        }
    }

    /// The `n`th call from now fails, in place of what was planned.
    pub fn fail(&mut self, n: u64, way: Way)
        ensures { self.new ≡ record self.old { plan = Plan.Once n way } }
    {
        self.plan = Plan::Once(n, way);
    }

    /// The `n`th call from now fails, and every later one until `go`, in place of what was planned. The later ones change nothing.
    pub fn stop(&mut self, n: u64, way: Way)
        ensures { self.new ≡ record self.old { plan = Plan.From n way } }
    {
        self.plan = Plan::From(n, way);
    }

    /// Ends a stop. A single failure that is still to come stays.
    pub fn go(&mut self)
        ensures { self.new ≡ record self.old { plan = plan_gone self.old.plan } }
    {
        if let Plan::From(_, _) | Plan::Stopped = self.plan {
            self.plan = Plan::Never;
        }
    }

    /// How many calls were made.
    pub fn calls(&self) -> u64
        ensures { result ≡ self.now.calls }
    {
        self.calls
    }
}

impl MemDisk {
    // Counts a call, and answers how it fails, if it does.
    pub(crate) fn begin(&mut self) -> Option<Way>
        ensures way { result ≡ next_fails self.old.plan }
        ensures after { self.new ≡ record self.old { plan = plan_after self.old.plan; calls = next self.old.calls } }
    {
        self.calls = self.calls.saturating_add(1);
        let (way, plan) = match self.plan {
            Plan::Never => (None, Plan::Never),
            Plan::Once(1, way) => (Some(way), Plan::Never),
            Plan::From(1, way) => (Some(way), Plan::Stopped),
            Plan::Once(n, way) => (None, Plan::Once(n.saturating_sub(1), way)),
            Plan::From(n, way) => (None, Plan::From(n.saturating_sub(1), way)),
            Plan::Stopped => (Some(Way::Old), Plan::Stopped),
        };
        self.plan = plan;
        way
    }

    pub(crate) fn fault(&mut self) -> DiskFault
        ensures fault { result ≡ DiskFault.Failed }
        ensures after { self.new ≡ record self.old { failed = next self.old.failed } }
        ensures rose { Rose self.old.failed self.new.failed }
    {
        self.failed = self.failed.saturating_add(1);
        DiskFault::Failed
    }

    fn read(&self, alloc: Global, name: &str) -> Mem<Option<ByteBuf>>
        ensures { IfOk result (λ found. found ≡ file_at self.now.files name.now) }
    {
        match self.files.get(name) {
            Some(bytes) => Ok(Some(ByteBuf::of(alloc, bytes.bytes())?)),
            None => Ok(None),
        }
    }

    /// The names of all files.
    pub(crate) fn all_names(&self, alloc: Global) -> Mem<NameList>
        ensures { IfOk result (IsNamesOf self.now.files) }
    {
        self.files.all(alloc)
    }

    // The change that `put` makes.
    fn write(&mut self, name: &str, bytes: &[u8]) -> Mem<()>
        requires { IsName name.now }
        ensures ok { OnOk result (self.new ≡ record self.old { files = with_file self.old.files name.now bytes.now }) }
        ensures err { OnErr result (self.new ≡ self.old) }
    {
        self.files.insert(name, ByteBuf::of(self.alloc, bytes)?)
    }

    // The change that `remove` makes.
    fn erase(&mut self, name: &str)
        ensures { self.new ≡ record self.old { files = without_file self.old.files name.now } }
    {
        self.files.remove(name);
    }
}

impl Disk for MemDisk {
    ghost faults = { λ d. d.failed };

    ghost files = { λ d. Some d.files };

    ghost calls = { λ _. None };

    fn get(&mut self, alloc: Global, name: &str) -> Result<Option<ByteBuf>, DiskFault>
        ensures fails { IsPlanned self.old.plan result }
        ensures found { IfOk result (λ found. found ≡ file_at self.old.files name.now) }
        ensures after { self.new ≡ read_after self.old result }

        // What every disk promises.
        ensures value { IfOk result (λ found. found ≡ file_at self.old.files name.now) }
        ensures same { Some self.new.files ≡ Some self.old.files }
        ensures cause { HasDiskCause self.old.failed self.new.failed result }
        ensures made { None ≡ told_call None (Get name.now (is_ok result)) }
    {
        if self.begin().is_some() {
            return Err(self.fault());
        }
        Ok(self.read(alloc, name)?)
    }

    fn put(&mut self, name: &str, bytes: &[u8]) -> Result<(), DiskFault>
        requires { IsName name.now }
        ensures fails { IsPlannedPut self.old.plan result }
        ensures after { self.new ≡ write_after self.old (with_file self.old.files name.now bytes.now) result }

        // What every disk promises.
        ensures ok { OnOk result (Some self.new.files ≡ Some (with_file self.old.files name.now bytes.now)) }
        ensures err { IfErr result (IsOldOrNew (Some self.old.files) (Some (with_file self.old.files name.now bytes.now)) (Some self.new.files)) }
        ensures cause { HasDiskCause self.old.failed self.new.failed result }
        ensures made { None ≡ told_call None (Put name.now bytes.now (is_ok result)) }
    {
        match self.begin() {
            None => Ok(self.write(name, bytes)?),
            Some(Way::Old) => Err(self.fault()),
            Some(Way::New) => {
                self.write(name, bytes)?;
                Err(self.fault())
            }
        }
    }

    fn remove(&mut self, name: &str) -> Result<(), DiskFault>
        ensures planned { IsPlanned self.old.plan result }
        ensures after { self.new ≡ write_after self.old (without_file self.old.files name.now) result }

        // What every disk promises.
        ensures ok { OnOk result (Some self.new.files ≡ Some (without_file self.old.files name.now)) }
        ensures err { IfErr result (IsOldOrNew (Some self.old.files) (Some (without_file self.old.files name.now)) (Some self.new.files)) }
        ensures fails { IfErr result (λ e. e ≡ DiskFault.Failed) }
        ensures cause { HasDiskCause self.old.failed self.new.failed result }
        ensures made { None ≡ told_call None (Remove name.now (is_ok result)) }
    {
        match self.begin() {
            None => {
                self.erase(name);
                Ok(())
            }
            Some(Way::Old) => Err(self.fault()),
            Some(Way::New) => {
                self.erase(name);
                Err(self.fault())
            }
        }
    }

    fn list(
        &mut self,
        alloc: Global,
        prefix: &str,
        after: &str,
        most: usize,
    ) -> Result<NameList, DiskFault>
        ensures fails { IsPlanned self.old.plan result }
        ensures after { self.new ≡ read_after self.old result }

        // What every disk promises.
        ensures names { IfOk result (IsListing prefix.now after.now most) }
        ensures value { IfOk result (λ names. names ≡ take most (names_after self.old.files prefix.now after.now)) }
        ensures same { Some self.new.files ≡ Some self.old.files }
        ensures cause { HasDiskCause self.old.failed self.new.failed result }
        ensures made { None ≡ told_call None (names_call prefix.now after.now most (is_ok result)) }
    {
        if self.begin().is_some() {
            return Err(self.fault());
        }
        Ok(self.files.list(alloc, prefix, after, most)?)
    }
}
