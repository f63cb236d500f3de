//! Stamps of folders, and each call with its disk call failing, before and after its change.
ghost use Rattle.std.specs.Prelude.{IfSome, IsTrue};
ghost use Rattle.sp_base.specs.Paths.{mangled_segs};
ghost use Rattle.docroot_format.specs.Names.{have_names};

use crate::disks::{disk_with, outcome, stands};
use cover_rules::Stamp;
use docroot_format::FileFault;
use sp_base::Path;
use sp_outside::{MemDisk, Way};
use stat_files::{outdates_page, stamp_of, touch};
use std::alloc::Global;

const STAT: &str = "content/_jcr_content/.stat";

// The folder `/content/jcr:content`, whose segments' file names are `content` and `_jcr_content`.
fn folder(alloc: Global) -> Option<Path>
    ensures { IfSome result (λ folder. IsTrue (have_names (mangled_segs folder))) }
{
    match Path::read(alloc, "/content/jcr:content") {
        Ok(folder) => Some(folder),
        Err(_) => None,
    }
}

fn touched(alloc: Global, disk: &mut MemDisk) -> Result<(), FileFault> {
    match folder(alloc) {
        Some(folder) => touch(alloc, disk, &folder, Stamp { epoch: 1, count: 5 }),
        None => Err(FileFault::NoMemory),
    }
}

fn stamp(alloc: Global, disk: &mut MemDisk) -> Result<Option<Stamp>, FileFault> {
    match folder(alloc) {
        Some(folder) => stamp_of(alloc, disk, &folder),
        None => Err(FileFault::NoMemory),
    }
}

fn touches(alloc: Global, disk: &mut MemDisk) -> bool {
    stamp(alloc, disk) == Ok(None)
        && touched(alloc, disk) == Ok(())
        && disk.calls() == 2
        && stands(alloc, disk, STAT, Some("stat 1 1 5\n"))
        && stamp(alloc, disk) == Ok(Some(Stamp { epoch: 1, count: 5 }))
}

fn keeps_a_stamp(alloc: Global) -> bool {
    let mut disk = MemDisk::new(alloc);
    touches(alloc, &mut disk)
}

#[test]
fn a_stamp_stands_in_the_mangled_folder(rt: HostRuntime) {
    assert!(rt; keeps_a_stamp(rt.alloc()));
}

const GREATEST: Stamp = Stamp {
    epoch: u64::MAX,
    count: u64::MAX,
};

// The text of a .stat file, and its stamp.
const STAMPS: &[(&str, Stamp)] = &[
    ("stat 1 7 0\n", Stamp { epoch: 7, count: 0 }),
    (
        "stat 1 18446744073709551615 18446744073709551615\n",
        GREATEST,
    ),
    ("x", GREATEST),
    ("", GREATEST),
    ("stat 1 7 0", GREATEST),
    ("stat 1 7 0\n\n", GREATEST),
    ("stat 1 07 0\n", GREATEST),
    ("stat 1 7 18446744073709551616\n", GREATEST),
    ("stat 2 7 0\n", GREATEST),
];

fn reads(alloc: Global, text: &str, wanted: Stamp) -> bool {
    let mut disk = disk_with(alloc, &[(STAT, text)]);
    stamp(alloc, &mut disk) == Ok(Some(wanted)) && stands(alloc, &mut disk, STAT, Some(text))
}

#[test]
fn reads_stamps(rt: HostRuntime) {
    for (text, wanted) in STAMPS {
        assert!(rt; reads(rt.alloc(), *text, *wanted));
    }
}

const TWO: &str = "stat 1 1 2\n";

// Whether a call touches, how its disk call fails, and what the file holds then.
type FailureRow<'a> = (bool, Way, &'a str);

const FAILURES: &[FailureRow<'_>] = &[
    (true, Way::Old, TWO),
    (true, Way::New, "stat 1 1 5\n"),
    (false, Way::Old, TWO),
    (false, Way::New, TWO),
];

fn call(alloc: Global, disk: &mut MemDisk, touches: bool) -> Result<(), FileFault> {
    if touches {
        touched(alloc, disk)
    } else {
        outcome(stamp(alloc, disk))
    }
}

fn fails(alloc: Global, disk: &mut MemDisk, row: &FailureRow<'_>) -> bool {
    let (touches, way, left) = *row;
    disk.fail(1, way);
    let before = disk.calls();
    call(alloc, disk, touches) == Err(FileFault::Disk)
        && disk.calls().saturating_sub(before) == 1
        && stands(alloc, disk, STAT, Some(left))
}

fn leaves(alloc: Global, row: &FailureRow<'_>) -> bool {
    let mut disk = disk_with(alloc, &[(STAT, TWO)]);
    fails(alloc, &mut disk, row)
}

#[test]
fn calls_fail_in_their_call_of_the_disk(rt: HostRuntime) {
    for row in FAILURES {
        assert!(rt; leaves(rt.alloc(), row));
    }
}

const PAGE: Stamp = Stamp { epoch: 2, count: 5 };

// The stamp of a folder, and whether it outdates the page.
const OUTDATED: &[(Option<Stamp>, bool)] = &[
    (None, false),
    (Some(Stamp { epoch: 2, count: 4 }), false),
    (Some(PAGE), true),
    (Some(Stamp { epoch: 2, count: 6 }), true),
    (Some(Stamp { epoch: 1, count: 6 }), false),
    (Some(Stamp { epoch: 3, count: 0 }), true),
];

#[test]
fn a_page_of_the_same_stamp_is_outdated(rt: HostRuntime) {
    for (stat, wanted) in OUTDATED {
        assert!(rt; outdates_page(*stat, PAGE) == *wanted);
    }
}
