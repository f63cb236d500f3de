//! A disk in memory as files below a folder, of which a chosen call fails, so that what is made of them can be tried.
ghost use Rattle.std.specs.Prelude.{◌≡◌, IfOk, Some, codes};

use crate::{Disk, DiskFault, MemDisk, RawFiles};
use sp_base::{ByteBuf, Mem, NameList};
use std::alloc::Global;

/// What memory tells as the id of its boot.
const BOOT: &str = "memory";

impl RawFiles for MemDisk {
    ghost boot = { Some (codes "memory") };

    ghost faults = { λ d. d.failed };

    ghost files = { λ d. Some d.files };

    fn read(&mut self, alloc: Global, name: &str) -> Result<Option<ByteBuf>, DiskFault> {
        self.get(alloc, name)
    }

    fn replace(&mut self, name: &str, bytes: &[u8]) -> Result<(), DiskFault> {
        self.put(name, bytes)
    }

    fn unlink(&mut self, name: &str) -> Result<(), DiskFault> {
        self.remove(name)
    }

    fn walk(&mut self, alloc: Global) -> Result<NameList, DiskFault> {
        if self.begin().is_some() {
            return Err(self.fault());
        }
        Ok(self.all_names(alloc)?)
    }

    fn boot_id(&self, alloc: Global) -> Mem<Option<ByteBuf>> {
        Ok(Some(ByteBuf::of(alloc, BOOT.as_bytes())?))
    }
}
