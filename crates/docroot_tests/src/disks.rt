//! Disks in memory that hold some files.
use docroot_format::FileFault;
use sp_outside::{Disk, LONGEST_FILE_NAME, MemDisk};
use std::alloc::Global;

/// Names of files, and their texts.
pub(crate) type Held<'a> = &'a [(&'a str, &'a str)];

pub(crate) fn disk_with(alloc: Global, files: Held<'_>) -> MemDisk {
    let mut disk = MemDisk::new(alloc);
    for (name, text) in files {
        if !name.is_empty() && name.len() <= LONGEST_FILE_NAME {
            let _ = disk.put(name, text.as_bytes());
        }
    }
    disk
}

/// Whether the file of a name has this text, or isn't there.
pub(crate) fn stands(alloc: Global, disk: &mut MemDisk, name: &str, wanted: Option<&str>) -> bool {
    match (disk.get(alloc, name), wanted) {
        (Ok(Some(found)), Some(wanted)) => found.bytes() == wanted.as_bytes(),
        (Ok(None), None) => true,
        _ => false,
    }
}

/// How a call ended, whatever it gave.
pub(crate) fn outcome<T: Drop>(given: Result<T, FileFault>) -> Result<(), FileFault> {
    match given {
        Ok(_) => Ok(()),
        Err(fault) => Err(fault),
    }
}
