//! A disk in memory: what it holds, and which of its calls fail.
use sp_base::{ByteBuf, NameList};
use sp_outside::{Disk, DiskFault, MemDisk, Way};
use std::alloc::Global;

fn is_file(found: Result<Option<ByteBuf>, DiskFault>, wanted: &[u8]) -> bool {
    match found {
        Ok(Some(bytes)) => bytes.bytes() == wanted,
        _ => false,
    }
}

fn is_gone(found: Result<Option<ByteBuf>, DiskFault>) -> bool {
    matches!(&found, Ok(None))
}

fn holds_files(alloc: Global) -> bool {
    let mut disk = MemDisk::new(alloc);
    disk.put("a", b"1") == Ok(())
        && disk.put("b", b"2") == Ok(())
        && is_file(disk.get(alloc, "b"), b"2")
        && disk.remove("a") == Ok(())
        && is_gone(disk.get(alloc, "a"))
        && disk.calls() == 5
}

fn are_listed(found: Result<NameList, DiskFault>, wanted: &str) -> bool {
    match found {
        Ok(names) => {
            names.len() == 1 && matches!(names.get(0), Some(name) if name.text() == wanted)
        }
        Err(_) => false,
    }
}

fn lists_names(alloc: Global) -> bool {
    let mut disk = MemDisk::new(alloc);
    disk.put("a/x", b"") == Ok(())
        && disk.put("b", b"") == Ok(())
        && disk.put("a/y", b"") == Ok(())
        && disk.put("a/z", b"") == Ok(())
        && are_listed(disk.list(alloc, "a/", "a/x", 1), "a/y")
}

fn fails_as_planned(alloc: Global) -> bool {
    let mut disk = MemDisk::new(alloc);
    disk.fail(1, Way::New);
    disk.put("a", b"1") == Err(DiskFault::Failed)
        && is_file(disk.get(alloc, "a"), b"1")
        && stops_as_planned(alloc, &mut disk)
}

fn stops_as_planned(alloc: Global, disk: &mut MemDisk) -> bool {
    disk.stop(2, Way::New);
    let is_stopped = disk.put("a", b"2") == Ok(())
        && disk.remove("a") == Err(DiskFault::Failed)
        && disk.put("a", b"3") == Err(DiskFault::Failed);
    disk.go();
    is_stopped && is_gone(disk.get(alloc, "a"))
}

#[test]
fn a_disk_in_memory(rt: HostRuntime) {
    assert!(rt; holds_files(rt.alloc()));
    assert!(rt; lists_names(rt.alloc()));
    assert!(rt; fails_as_planned(rt.alloc()));
}
