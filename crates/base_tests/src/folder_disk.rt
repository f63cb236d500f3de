//! The disk over the files below a folder, here in memory, of which one call fails.
use crate::real_disk::{NOTHING, Rows, holds, lacks, lists, puts};
use sp_outside::{Disk, DiskFault, FolderDisk, MemDisk, Way};
use std::alloc::Global;

// What a killed process left, with what the folder keeps for itself.
const BELOW: &[(&str, &str)] = &[
    (".epoch", "e"),
    (".lock%t%t", ""),
    ("a.html", "2"),
    ("a/.stat", "s"),
    ("a/x.html", "33"),
    ("a/x.html%t", "half"),
];

const OF_THIS_BOOT: &[(&str, &str)] = &[(".boot%t%t", "memory")];

const OF_ANOTHER: &[(&str, &str)] = &[(".boot%t%t", "another")];

const NEW: &[(&str, &str)] = &[("a/x.html", "4"), ("b.html", "5")];

const CHANGED: Rows<'_> = &[
    ("", "", 9, &[".epoch", "a/.stat", "a/x.html", "b.html"]),
    ("a/", "a/.stat", 1, &["a/x.html"]),
];

const ONLY_NEW: Rows<'_> = &[("", "", 9, &["a/x.html", "b.html"])];

const OWN: &[(&str, &str)] = &[(".boot%t%t", "memory"), (".lock%t%t", "")];

// The disk over these files, of which the `n`th call fails.
fn over(
    alloc: Global,
    boot: &[(&str, &str)],
    n: u64,
    way: Way,
) -> Result<FolderDisk<MemDisk>, DiskFault> {
    let mut below = MemDisk::new(alloc);
    if !puts(&mut below, BELOW) || !puts(&mut below, boot) {
        return Err(DiskFault::NoMemory);
    }
    below.fail(n, way);
    Ok(FolderDisk::over(alloc, below))
}

// Each call that failed is made again.
fn changes<D: Disk>(alloc: Global, disk: &mut D, listed: Rows<'_>) -> bool {
    let _ = disk.get(alloc, "a/.stat");
    (puts(disk, NEW) || puts(disk, NEW))
        && (disk.remove("a.html").is_ok() || disk.remove("a.html").is_ok())
        && (lists(alloc, disk, listed) || lists(alloc, disk, listed))
        && (holds(alloc, disk, NEW) || holds(alloc, disk, NEW))
}

// What is below the folder afterwards, and whether the file that a killed process left is gone.
fn is_clean(alloc: Global, disk: FolderDisk<MemDisk>) -> Result<bool, DiskFault> {
    let mut below = disk.into_files();
    below.fail(0, Way::Old);
    if !holds(alloc, &mut below, OWN) || !holds(alloc, &mut below, NEW) {
        return Err(DiskFault::Failed);
    }
    Ok(below.get(alloc, "a/x.html%t")?.is_none())
}

// Of how many calls, where each of the first fails alone, the failure left the file that a killed process had left.
fn runs_that_left(
    alloc: Global,
    boot: &[(&str, &str)],
    way: Way,
    listed: Rows<'_>,
) -> Result<u64, DiskFault> {
    let mut left = 0u64;
    for n in 0..24u64 {
        let mut disk = over(alloc, boot, n, way)?;
        if !changes(alloc, &mut disk, listed) {
            return Err(DiskFault::Failed);
        }
        left = left.saturating_add(u64::from(!is_clean(alloc, disk)?));
    }
    Ok(left)
}

#[test]
fn a_failure_below_changes_nothing_for_good(rt: HostRuntime) {
    assert!(rt; runs_that_left(rt.alloc(), OF_THIS_BOOT, Way::Old, CHANGED) == Ok(1));
    assert!(rt; runs_that_left(rt.alloc(), OF_THIS_BOOT, Way::New, CHANGED) == Ok(0));
    assert!(rt; runs_that_left(rt.alloc(), OF_ANOTHER, Way::Old, ONLY_NEW) == Ok(1));
    assert!(rt; runs_that_left(rt.alloc(), OF_ANOTHER, Way::New, ONLY_NEW) == Ok(0));
}

fn begins_empty(alloc: Global) -> bool {
    match over(alloc, OF_ANOTHER, 0, Way::Old) {
        Ok(mut disk) => lists(alloc, &mut disk, NOTHING),
        Err(_) => false,
    }
}

fn goes_on(alloc: Global) -> bool {
    match over(alloc, OF_THIS_BOOT, 0, Way::Old) {
        Ok(mut disk) => {
            lists(
                alloc,
                &mut disk,
                &[("", "", 9, &[".epoch", "a.html", "a/.stat", "a/x.html"])],
            ) && lacks(alloc, &mut disk, &["a/x.html%t", ".lock%t%t", "../a.html"])
        }
        Err(_) => false,
    }
}

#[test]
fn files_of_this_boot_are_kept(rt: HostRuntime) {
    assert!(rt; begins_empty(rt.alloc()));
    assert!(rt; goes_on(rt.alloc()));
}
