//! The disk of a scenario, which fails as the scenario says.
ghost use Rattle.std.specs.Prelude.{◌≡◌, Some, None, true, false};
ghost use Rattle.std.specs.FinMap.{empty};
ghost use Rattle.sp_outside.specs.Causes.{HasDiskCause};
ghost use Rattle.sling_dispatch.specs.ScriptedDisks.{disk_gone, files_of_disk};
ghost use Rattle.sling_dispatch.specs.ScriptedStates.{count_after, fault_count, has_disk_failed};

use sp_base::{ByteBuf, NameList};
use sp_outside::{Disk, DiskFault, MemDisk, Way};
use std::alloc::Global;
use std::marker::Model;

/// Files in memory. No call of them fails, or one at most that is planned.
#[derive(Drop)]
pub struct FailingDisk {
    disk: MemDisk,
    // Whether no call may fail any more.
    spent: bool,
}

/// Files in memory of which each call from one on fails. It counts those that failed.
#[derive(Drop)]
pub struct StoppedDisk {
    disk: MemDisk,
    failed: u64,
}

/// The disk of a scenario.
#[derive(Drop)]
pub enum ScriptedDisk {
    Failing(FailingDisk),
    Stopped(StoppedDisk),
}

impl Model for FailingDisk {
    ghost use Rattle.std.specs.Coded.{codes};
    ghost use Rattle.sp_outside.specs.Files.{files_code};
    ghost use Rattle.sling_dispatch.specs.ScriptedStates.{FailingState, FailsOnce};

    ghost Value = { FailingState };

    ghost coded = { Prim.hlevel (codes, files_code) };

    ghost view = { λ d. record { files = d.disk.files; spent = d.spent } };

    ghost invariant = { λ d. FailsOnce d.disk.plan d.spent };
}

impl Model for StoppedDisk {
    ghost use Rattle.std.specs.Coded.{codes};
    ghost use Rattle.sp_outside.specs.Files.{files_code};
    ghost use Rattle.sling_dispatch.specs.ScriptedStates.{StoppedState, PlansNoSingle};

    ghost Value = { StoppedState };

    ghost coded = { Prim.hlevel (codes, files_code) };

    ghost view = { λ d. record { files = d.disk.files; failed = d.failed } };

    ghost invariant = { λ d. PlansNoSingle d.disk.plan };
}

impl FailingDisk {
    /// No files, and no call fails.
    pub fn new(alloc: Global) -> FailingDisk
        ensures { result ≡ record { files = empty; spent = true } }
    {
        FailingDisk {
            disk: MemDisk::new(alloc),
            spent: true,
        }
    }
}

impl ScriptedDisk {
    /// No files, and no call fails.
    pub fn new(alloc: Global) -> ScriptedDisk
        ensures { result ≡ ScriptedDisk.Failing (record { files = empty; spent = true }) }
    {
        ScriptedDisk::Failing(FailingDisk::new(alloc))
    }

    /// The `n`th call from now fails, in place of what was planned.
    pub fn fail(self, n: u64, way: Way) -> ScriptedDisk
        ensures { result ≡ ScriptedDisk.Failing (record { files = files_of_disk self; spent = false }) }
    {
        let mut disk = self.into_memory();
        disk.fail(n, way);
        ScriptedDisk::Failing(FailingDisk { disk, spent: false })
    }

    /// The `n`th call from now fails, and every later one until `go`, in place of what was planned. The later ones change nothing.
    pub fn stop(self, n: u64, way: Way) -> ScriptedDisk
        ensures { result ≡ ScriptedDisk.Stopped (record { files = files_of_disk self; failed = 0 }) }
    {
        let mut disk = self.into_memory();
        disk.stop(n, way);
        ScriptedDisk::Stopped(StoppedDisk { disk, failed: 0 })
    }

    /// Ends a stop. A single failure that is still to come stays.
    pub fn go(self) -> ScriptedDisk
        ensures { result ≡ disk_gone self }
    {
        match self {
            ScriptedDisk::Failing(disk) => ScriptedDisk::Failing(disk),
            ScriptedDisk::Stopped(StoppedDisk { disk, failed: _ }) => {
                let mut disk = disk;
                disk.go();
                ScriptedDisk::Failing(FailingDisk { disk, spent: true })
            }
        }
    }

    fn into_memory(self) -> MemDisk
        ensures { result.files ≡ files_of_disk self }
    {
        match self {
            ScriptedDisk::Failing(FailingDisk { disk, spent: _ }) => disk,
            ScriptedDisk::Stopped(StoppedDisk { disk, failed: _ }) => disk,
        }
    }
}

impl StoppedDisk {
    /// Counts from 0 on again.
    pub fn forget_faults(&mut self)
        ensures { self.new ≡ record { files = self.old.files; failed = 0 } }
    {
        self.failed = 0;
    }
}

// Whether a call failed.
fn has_failed<T>(call: &Result<T, DiskFault>) -> bool
    ensures { result ≡ has_disk_failed call.now }
{
    matches!(call, Err(DiskFault::Failed))
}

// Counts a call, if it failed. The count stands still at its type's end.
fn counted<T>(failed: u64, call: &Result<T, DiskFault>) -> u64
    ensures count { result ≡ count_after failed call.now }
    ensures cause { HasDiskCause failed result call.now }
{
    match call {
        Err(DiskFault::Failed) => failed.saturating_add(1),
        _ => failed,
    }
}

impl Disk for FailingDisk {
    ghost faults = { λ d. fault_count d.spent };

    ghost files = { λ d. Some d.files };

    ghost calls = { λ _. None };

    fn get(&mut self, alloc: Global, name: &str) -> Result<Option<ByteBuf>, DiskFault> {
        let found = self.disk.get(alloc, name);
        self.spent = self.spent || has_failed(&found);
        found
    }

    fn put(&mut self, name: &str, bytes: &[u8]) -> Result<(), DiskFault> {
        let done = self.disk.put(name, bytes);
        self.spent = self.spent || has_failed(&done);
        done
    }

    fn remove(&mut self, name: &str) -> Result<(), DiskFault> {
        let done = self.disk.remove(name);
        self.spent = self.spent || has_failed(&done);
        done
    }

    fn list(
        &mut self,
        alloc: Global,
        prefix: &str,
        after: &str,
        most: usize,
    ) -> Result<NameList, DiskFault> {
        let names = self.disk.list(alloc, prefix, after, most);
        self.spent = self.spent || has_failed(&names);
        names
    }
}

impl Disk for StoppedDisk {
    ghost faults = { λ d. d.failed };

    ghost files = { λ d. Some d.files };

    ghost calls = { λ _. None };

    fn get(&mut self, alloc: Global, name: &str) -> Result<Option<ByteBuf>, DiskFault> {
        let found = self.disk.get(alloc, name);
        self.failed = counted(self.failed, &found);
        found
    }

    fn put(&mut self, name: &str, bytes: &[u8]) -> Result<(), DiskFault> {
        let done = self.disk.put(name, bytes);
        self.failed = counted(self.failed, &done);
        done
    }

    fn remove(&mut self, name: &str) -> Result<(), DiskFault> {
        let done = self.disk.remove(name);
        self.failed = counted(self.failed, &done);
        done
    }

    fn list(
        &mut self,
        alloc: Global,
        prefix: &str,
        after: &str,
        most: usize,
    ) -> Result<NameList, DiskFault> {
        let names = self.disk.list(alloc, prefix, after, most);
        self.failed = counted(self.failed, &names);
        names
    }
}
