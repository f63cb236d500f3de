//! What the disk of the real system makes of its folder: whose files stand there, who else uses it, and what was taken away of it.
use crate::real_disk::{FILES, NOTHING, ONE, fresh, holds, is_absent, lists, puts, refuses};
use sp_base::Mem;
use sp_outside::{Disk, DiskFault, RealDisk};
use std::alloc::Global;
use std::fs;
use std::os::unix::fs::PermissionsExt;

fn puts_files(rt: &HostRuntime, folder: &str) -> bool {
    match fresh(rt, folder) {
        Ok(mut disk) => puts(&mut disk, FILES),
        Err(_) => false,
    }
}

fn finds_files(rt: &HostRuntime, folder: &str) -> bool {
    match RealDisk::below(rt, folder) {
        Ok(mut disk) => holds(rt.alloc(), &mut disk, FILES),
        Err(_) => false,
    }
}

fn finds_nothing(rt: &HostRuntime, folder: &str) -> bool {
    match RealDisk::below(rt, folder) {
        Ok(mut disk) => lists(rt.alloc(), &mut disk, NOTHING),
        Err(_) => false,
    }
}

// The files are of another boot, or it isn't known of which.
fn loses_files_of_another_boot(rt: &HostRuntime) -> bool {
    fs::write(rt, "disk_of_boots/.boot%t%t", "another").is_ok()
        && finds_nothing(rt, "disk_of_boots")
        && is_absent(rt, "disk_of_boots/a/x.html")
        && is_absent(rt, "disk_of_boots/.epoch")
}

fn loses_files_of_no_boot(rt: &HostRuntime) -> bool {
    fs::remove_file(rt, "disk_of_boots/.boot%t%t").is_ok()
        && finds_nothing(rt, "disk_of_boots")
        && is_absent(rt, "disk_of_boots/a/x.html")
}

// No session can go on from the files.
fn loses_files_of_no_session(rt: &HostRuntime) -> bool {
    fs::remove_file(rt, "disk_of_boots/.epoch").is_ok()
        && finds_nothing(rt, "disk_of_boots")
        && is_absent(rt, "disk_of_boots/a/x.html")
}

#[test]
fn files_last_over_no_boot(rt: HostRuntime) {
    assert!(rt; puts_files(&rt, "disk_of_boots"));
    assert!(rt; finds_files(&rt, "disk_of_boots"));
    assert!(rt; loses_files_of_another_boot(&rt));
    assert!(rt; puts_files(&rt, "disk_of_boots"));
    assert!(rt; loses_files_of_no_boot(&rt));
    assert!(rt; puts_files(&rt, "disk_of_boots"));
    assert!(rt; loses_files_of_no_session(&rt));
}

fn is_kept_out<D: Disk>(alloc: Global, disk: &mut D) -> bool {
    matches!(disk.get(alloc, "a/x"), Err(DiskFault::Failed))
        && matches!(disk.list(alloc, "", "", 1), Err(DiskFault::Failed))
        && disk.remove("a/x") == Err(DiskFault::Failed)
        && refuses(disk, &["a/x"])
}

// Another disk comes to a folder, and one that is there already keeps it out.
fn keeps_out<D: Disk>(rt: &HostRuntime, folder: &str, another: &mut D) -> bool {
    match fresh(rt, folder) {
        Ok(mut disk) => {
            puts(&mut disk, ONE)
                && is_kept_out(rt.alloc(), another)
                && holds(rt.alloc(), &mut disk, ONE)
        }
        Err(_) => false,
    }
}

fn keeps_out_until_it_ends(rt: &HostRuntime, folder: &str) -> bool {
    match RealDisk::below(rt, folder) {
        Ok(mut another) => {
            keeps_out(rt, folder, &mut another) && holds(rt.alloc(), &mut another, ONE)
        }
        Err(_) => false,
    }
}

#[test]
fn one_disk_at_a_time_uses_a_folder(rt: HostRuntime) {
    assert!(rt; keeps_out_until_it_ends(&rt, "disk_of_two"));
}

// A file under the lock's name in capitals stands where a file system would find the lock itself.
fn lay_a_name_in_capitals(rt: &HostRuntime) -> bool {
    fs::create_dir(rt, "disk_of_cases").is_ok()
        && fs::write(rt, "disk_of_cases/.LOCK%t%t", "").is_ok()
}

fn tells_cases(rt: &HostRuntime) -> bool {
    match fresh(rt, "disk_of_cases") {
        Ok(mut disk) => {
            lay_a_name_in_capitals(rt)
                && is_kept_out(rt.alloc(), &mut disk)
                && fs::remove_file(rt, "disk_of_cases/.LOCK%t%t").is_ok()
                && puts(&mut disk, ONE)
        }
        Err(_) => false,
    }
}

#[test]
fn a_folder_that_takes_two_cases_for_one_is_refused(rt: HostRuntime) {
    assert!(rt; tells_cases(&rt));
}

// A folder is gone, and its files with it.
fn makes_a_folder_again<D: Disk>(rt: &HostRuntime, disk: &mut D) -> bool {
    puts(disk, FILES)
        && fs::remove_dir_all(rt, "disk_of_removals/a").is_ok()
        && matches!(disk.get(rt.alloc(), "a/x.html"), Ok(None))
        && puts(disk, &[("a/.stat", "t")])
        && disk.remove("a/x.html") == Ok(())
        && lists(rt.alloc(), disk, &[("a/", "", 9, &["a/.stat"])])
}

// So is the docroot, with its lock.
fn makes_the_docroot_again<D: Disk>(rt: &HostRuntime, disk: &mut D) -> bool {
    fs::remove_dir_all(rt, "disk_of_removals").is_ok()
        && puts(disk, FILES)
        && holds(rt.alloc(), disk, FILES)
        && finds_no_place(rt)
}

fn finds_no_place(rt: &HostRuntime) -> bool {
    match RealDisk::below(rt, "disk_of_removals") {
        Ok(mut another) => is_kept_out(rt.alloc(), &mut another),
        Err(_) => false,
    }
}

fn makes_folders_again(rt: &HostRuntime) -> bool {
    match fresh(rt, "disk_of_removals") {
        Ok(mut disk) => {
            makes_a_folder_again(rt, &mut disk) && makes_the_docroot_again(rt, &mut disk)
        }
        Err(_) => false,
    }
}

#[test]
fn a_folder_that_was_taken_away_is_made_again(rt: HostRuntime) {
    assert!(rt; makes_folders_again(&rt));
    // A disk after it doesn't go on from there.
    assert!(rt; finds_nothing(&rt, "disk_of_removals"));
}

// An empty folder that may not be read; who may read everything finds nothing in it.
fn lay_a_closed_folder(rt: &HostRuntime, mode: u32) -> bool {
    let closed = fs::Permissions::from_mode(mode);
    fs::set_permissions(rt, "disk_of_closed/lost+found", closed).is_ok()
}

fn passes_by_closed_folders(rt: &HostRuntime) -> bool {
    puts_files(rt, "disk_of_closed")
        && fs::create_dir(rt, "disk_of_closed/lost+found").is_ok()
        && lay_a_closed_folder(rt, 0o000)
        && finds_files(rt, "disk_of_closed")
        && lay_a_closed_folder(rt, 0o755)
}

#[test]
fn a_folder_that_may_not_be_read_is_passed_over(rt: HostRuntime) {
    assert!(rt; passes_by_closed_folders(&rt));
}

fn is_all<D: Disk>(alloc: Global, disk: &mut D, bytes: &[u8]) -> bool {
    match disk.get(alloc, "x") {
        Ok(Some(found)) => found.bytes() == bytes,
        _ => false,
    }
}

fn reads_sizes<D: Disk>(alloc: Global, disk: &mut D) -> Mem<bool> {
    for size in [0usize, 1, 4_096, 100_000] {
        let bytes = vec![in alloc; b'x'; size]?;
        if disk.put("x", &bytes).is_err() || !is_all(alloc, disk, &bytes) {
            return Ok(false);
        }
    }
    Ok(true)
}

fn reads_files_of_sizes(rt: &HostRuntime) -> bool {
    match fresh(rt, "disk_of_sizes") {
        Ok(mut disk) => matches!(reads_sizes(rt.alloc(), &mut disk), Ok(true)),
        Err(_) => false,
    }
}

#[test]
fn files_of_any_size_are_read(rt: HostRuntime) {
    assert!(rt; reads_files_of_sizes(&rt));
}
