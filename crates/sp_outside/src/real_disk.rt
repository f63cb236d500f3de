//! The disk of the real system. It tells nothing.
ghost use Rattle.std.specs.Prelude.{◌≡◌, IfOk};

use crate::{Disk, FolderDisk, FolderFiles};
use sp_base::Mem;
use std::fs::{File, Files};

/// The folder that `RealDisk::new` keeps its files in.
const DOCROOT: &str = "docroot";

/// Files below a folder of the real system. It tells nothing, and rests on nobody else writing the folder while it is used. So its first call
/// locks the folder, and fails where another process has.
pub type RealDisk<R> = FolderDisk<FolderFiles<R>>;

impl<R: Files<File = File> + AllocGlobal + Clone + Drop> FolderDisk<FolderFiles<R>> {
    /// The files of the folder `docroot`. Nothing is opened.
    pub fn new(rt: R) -> Mem<RealDisk<R>>
        ensures { IfOk result (λ disk. ⟦<RealDisk<R> as Disk>⟧.faults disk ≡ 0) }
    {
        RealDisk::below(rt, DOCROOT)
    }

    /// The files of another folder. Nothing is opened.
    pub fn below(rt: R, folder: &str) -> Mem<RealDisk<R>>
        ensures { IfOk result (λ disk. ⟦<RealDisk<R> as Disk>⟧.faults disk ≡ 0) }
    {
        let alloc = rt.alloc();
        Ok(FolderDisk::over(alloc, FolderFiles::below(rt, folder)?))
    }
}
