//! The number of the session, and its file.
use crate::disks::{disk_with, stands};
use cache_files::{OpenFault, open_epoch};
use sp_outside::{MemDisk, Way};
use std::alloc::Global;

const EPOCH: &str = ".epoch";

fn opens(alloc: Global, disk: &mut MemDisk) -> bool {
    open_epoch(alloc, disk) == Ok(1)
        && disk.calls() == 2
        && stands(alloc, disk, EPOCH, Some("epoch 1 1\n"))
        && open_epoch(alloc, disk) == Ok(2)
}

fn counts_sessions(alloc: Global) -> bool {
    let mut disk = MemDisk::new(alloc);
    opens(alloc, &mut disk)
}

#[test]
fn sessions_are_counted(rt: HostRuntime) {
    assert!(rt; counts_sessions(rt.alloc()));
}

// What the file holds, in which call of the disk it fails and how, the fault, the number of calls, and what the file holds then.
type FaultRow<'a> = (&'a str, u64, Way, OpenFault, u64, &'a str);

const SIX: &str = "epoch 1 6\n";

const LAST: &str = "epoch 1 18446744073709551615\n";

const TOO_LARGE: &str = "epoch 1 18446744073709551616\n";

const FAULTS: &[FaultRow<'_>] = &[
    (SIX, 1, Way::Old, OpenFault::Disk, 1, SIX),
    (SIX, 1, Way::New, OpenFault::Disk, 1, SIX),
    (SIX, 2, Way::Old, OpenFault::Disk, 2, SIX),
    (SIX, 2, Way::New, OpenFault::Disk, 2, "epoch 1 7\n"),
    (LAST, 9, Way::Old, OpenFault::EpochEnd, 1, LAST),
    (TOO_LARGE, 9, Way::Old, OpenFault::Foreign, 1, TOO_LARGE),
    (
        "epoch 1 0\n",
        9,
        Way::Old,
        OpenFault::Foreign,
        1,
        "epoch 1 0\n",
    ),
    ("epoch 1 1", 9, Way::Old, OpenFault::Foreign, 1, "epoch 1 1"),
    ("x", 9, Way::Old, OpenFault::Foreign, 1, "x"),
];

fn refuses(alloc: Global, disk: &mut MemDisk, row: &FaultRow<'_>) -> bool {
    let (_, n, way, fault, calls, left) = *row;
    disk.fail(n, way);
    let before = disk.calls();
    open_epoch(alloc, disk) == Err(fault)
        && disk.calls().saturating_sub(before) == calls
        && stands(alloc, disk, EPOCH, Some(left))
}

fn is_refused(alloc: Global, row: &FaultRow<'_>) -> bool {
    let mut disk = disk_with(alloc, &[(EPOCH, row.0)]);
    refuses(alloc, &mut disk, row)
}

#[test]
fn an_opening_fails(rt: HostRuntime) {
    for row in FAULTS {
        assert!(rt; is_refused(rt.alloc(), row));
    }
}
