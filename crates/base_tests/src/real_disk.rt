//! The disk of the real system, in folders of the tests' own.
use sp_base::Mem;
use sp_outside::{Disk, DiskFault, LONGEST_FILE_NAME, RealDisk};
use std::alloc::Global;
use std::fs::{self, Files};

// The disk of a folder that isn't there yet.
pub(crate) fn fresh<'a>(rt: &'a HostRuntime, folder: &str) -> Mem<RealDisk<&'a HostRuntime>> {
    let _ = fs::remove_dir_all(rt, folder);
    RealDisk::below(rt, folder)
}

pub(crate) fn puts<D: Disk>(disk: &mut D, files: &[(&str, &str)]) -> bool {
    for (name, bytes) in files {
        if name.is_empty()
            || name.len() > LONGEST_FILE_NAME
            || disk.put(name, bytes.as_bytes()).is_err()
        {
            return false;
        }
    }
    true
}

pub(crate) fn holds<D: Disk>(alloc: Global, disk: &mut D, files: &[(&str, &str)]) -> bool {
    for (name, bytes) in files {
        match disk.get(alloc, name) {
            Ok(Some(found)) if found.bytes() == bytes.as_bytes() => {}
            _ => return false,
        }
    }
    true
}

// No file has such a name, and a removal of it is one of nothing.
pub(crate) fn lacks<D: Disk>(alloc: Global, disk: &mut D, names: &[&str]) -> bool {
    for name in names {
        if !matches!(disk.get(alloc, name), Ok(None)) || disk.remove(name).is_err() {
            return false;
        }
    }
    true
}

pub(crate) fn refuses<D: Disk>(disk: &mut D, names: &[&str]) -> bool {
    for name in names {
        if name.is_empty() || name.len() > LONGEST_FILE_NAME || disk.put(name, b"x").is_ok() {
            return false;
        }
    }
    true
}

// Some names from a prefix and a name on, and what is listed.
pub(crate) type Rows<'a> = &'a [(&'a str, &'a str, usize, &'a [&'a str])];

fn are(found: Result<sp_base::NameList, DiskFault>, wanted: &[&str]) -> bool {
    match found {
        Ok(names) => {
            let mut both = names.as_slice().iter().zip(wanted);
            names.len() == wanted.len() && both.all(|(name, wanted)| name.text() == *wanted)
        }
        Err(_) => false,
    }
}

pub(crate) fn lists<D: Disk>(alloc: Global, disk: &mut D, rows: Rows<'_>) -> bool {
    for (prefix, after, most, wanted) in rows {
        if !are(disk.list(alloc, prefix, after, *most), wanted) {
            return false;
        }
    }
    true
}

pub(crate) const FILES: &[(&str, &str)] = &[
    (".epoch", "e"),
    ("a.html", "2"),
    ("a/.stat", "s"),
    ("a/x.html", "33"),
];

const LISTED: Rows<'_> = &[
    ("", "", 9, &[".epoch", "a.html", "a/.stat", "a/x.html"]),
    ("a", "a.html", 1, &["a/.stat"]),
    ("a/", "", 9, &["a/.stat", "a/x.html"]),
    ("b", "", 9, &[]),
];

pub(crate) const NOTHING: Rows<'_> = &[("", "", 9, &[])];

fn keeps_files<D: Disk>(alloc: Global, disk: &mut D) -> bool {
    lists(alloc, disk, NOTHING)
        && lacks(alloc, disk, &["a/x.html"])
        && puts(disk, &[("a/x.html", "1")])
        && puts(disk, FILES)
        && holds(alloc, disk, FILES)
        && lists(alloc, disk, LISTED)
}

fn keeps_files_in_a_folder(rt: &HostRuntime) -> bool {
    match fresh(rt, "disk_of_files") {
        Ok(mut disk) => keeps_files(rt.alloc(), &mut disk),
        Err(_) => false,
    }
}

// Puts files, and leaves half of another beside them, as a process that was killed between the write and the renaming.
fn leaves_files(rt: &HostRuntime) -> bool {
    match fresh(rt, "disk_of_another") {
        Ok(mut before) => {
            puts(&mut before, FILES) && fs::write(rt, "disk_of_another/a/x.html%t", "half").is_ok()
        }
        Err(_) => false,
    }
}

pub(crate) fn is_absent(rt: &HostRuntime, name: &str) -> bool {
    matches!(fs::exists(rt, name), Ok(false))
}

fn finds_files<D: Disk>(alloc: Global, disk: &mut D) -> bool {
    holds(alloc, disk, FILES)
        && lacks(alloc, disk, &["a/x.html%t"])
        && puts(disk, &[("a/x.html", "4")])
        && holds(alloc, disk, &[("a/x.html", "4")])
        && disk.remove("a/x.html") == Ok(())
        && lists(alloc, disk, &[("a", "", 9, &["a.html", "a/.stat"])])
}

fn finds_what_another_left(rt: &HostRuntime) -> bool {
    match RealDisk::below(rt, "disk_of_another") {
        Ok(mut disk) => finds_files(rt.alloc(), &mut disk),
        Err(_) => false,
    }
}

#[test]
fn keeps_and_finds_files(rt: HostRuntime) {
    assert!(rt; keeps_files_in_a_folder(&rt));
    assert!(rt; leaves_files(&rt));
    assert!(rt; finds_what_another_left(&rt));
    assert!(rt; is_absent(&rt, "disk_of_another/a/x.html"));
    assert!(rt; is_absent(&rt, "disk_of_another/a/x.html%t"));
}

// Each byte of ASCII that may stand in a name, and characters of two to four bytes.
const ANY_BYTES: &str =
    "\u{1}\u{2}\u{3}\u{4}\u{5}\u{6}\u{7}\u{8}\t\n\u{b}\u{c}\r\u{e}\u{f}\u{10}\u{11}\u{12}\u{13}\u{14}\u{15}\u{16}\u{17}\u{18}\u{19}\u{1a}\u{1b}\u{1c}\u{1d}\u{1e}\u{1f} !\"#$%&'()*+,-.0123456789:;<=>?@ABCDEFGHIJKLMNOPQRSTUVWXYZ[\\]^_`abcdefghijklmnopqrstuvwxyz{|}~\u{7f}\u{e9}\u{20ac}\u{1f600}";

const ANY_FILE: &[(&str, &str)] = &[(".epoch", "e"), (ANY_BYTES, "all")];

fn puts_any_file(rt: &HostRuntime) -> bool {
    match fresh(rt, "disk_of_names") {
        Ok(mut disk) => puts(&mut disk, ANY_FILE) && holds(rt.alloc(), &mut disk, ANY_FILE),
        Err(_) => false,
    }
}

fn finds_any_file(rt: &HostRuntime) -> bool {
    match RealDisk::below(rt, "disk_of_names") {
        Ok(mut disk) => {
            lists(rt.alloc(), &mut disk, &[("\u{1}", "", 9, &[ANY_BYTES])])
                && holds(rt.alloc(), &mut disk, ANY_FILE)
        }
        Err(_) => false,
    }
}

const WAYS_OUT: &[&str] = &[
    "../x", "a/../x", "/x", "a//x", "a/", ".", "a/./x", "..", "x\0y", "x%t",
];

fn lets_no_name_out(rt: &HostRuntime) -> bool {
    match fresh(rt, "disk_of_ways_out") {
        Ok(mut disk) => {
            refuses(&mut disk, WAYS_OUT)
                && lacks(rt.alloc(), &mut disk, WAYS_OUT)
                && lists(rt.alloc(), &mut disk, NOTHING)
        }
        Err(_) => false,
    }
}

#[test]
fn keeps_names_in_their_folder(rt: HostRuntime) {
    assert!(rt; puts_any_file(&rt));
    assert!(rt; finds_any_file(&rt));
    assert!(rt; lets_no_name_out(&rt));
    assert!(rt; is_absent(&rt, "x"));
}

const FILE_AND_FOLDER: &[(&str, &str)] = &[("file", "f"), ("folder/x", "x")];

const FILES_AS_FOLDERS: &[&str] = &["file/x", "file/x/y", "folder"];

fn refuses_folders<D: Disk>(alloc: Global, disk: &mut D) -> bool {
    puts(disk, FILE_AND_FOLDER)
        && refuses(disk, FILES_AS_FOLDERS)
        && lacks(alloc, disk, FILES_AS_FOLDERS)
        && holds(alloc, disk, FILE_AND_FOLDER)
        && lists(alloc, disk, &[("", "", 9, &["file", "folder/x"])])
}

fn refuses_files_as_folders(rt: &HostRuntime) -> bool {
    match fresh(rt, "disk_of_folders") {
        Ok(mut disk) => refuses_folders(rt.alloc(), &mut disk),
        Err(_) => false,
    }
}

// A folder with links that lead to a file beside it, or to that file's folder.
fn link_out(rt: &HostRuntime) -> bool {
    let outside = "disk_of_links_outside";
    let _ = fs::remove_dir_all(rt, outside);
    fs::create_dir(rt, "disk_of_links").is_ok()
        && fs::create_dir(rt, outside).is_ok()
        && fs::write(rt, "disk_of_links_outside/x", "secret").is_ok()
        && rt
            .symlink("../disk_of_links_outside", "disk_of_links/folder")
            .is_ok()
        && rt
            .symlink("../disk_of_links_outside/x", "disk_of_links/file")
            .is_ok()
        && rt
            .symlink("../disk_of_links_outside/x", "disk_of_links/new%t")
            .is_ok()
}

fn is_still_secret(rt: &HostRuntime) -> bool {
    let outside = fs::read_to_string(rt, "disk_of_links_outside/x");
    matches!(&outside, Ok(text) if text.as_str() == "secret")
}

const BESIDE_LINKS: &[(&str, &str)] = &[("file", "in"), ("new", "in")];

fn passes_by_links<D: Disk>(alloc: Global, disk: &mut D) -> bool {
    lists(alloc, disk, NOTHING)
        && lacks(alloc, disk, &["folder/x", "file"])
        && refuses(disk, &["folder/x"])
        && puts(disk, BESIDE_LINKS)
        && holds(alloc, disk, BESIDE_LINKS)
}

fn follows_no_links(rt: &HostRuntime) -> bool {
    match fresh(rt, "disk_of_links") {
        Ok(mut disk) => link_out(rt) && passes_by_links(rt.alloc(), &mut disk),
        Err(_) => false,
    }
}

#[test]
fn takes_nothing_for_a_folder(rt: HostRuntime) {
    assert!(rt; refuses_files_as_folders(&rt));
    assert!(rt; is_absent(&rt, "disk_of_folders/folder%t"));
    assert!(rt; follows_no_links(&rt));
    assert!(rt; is_still_secret(&rt));
}

// A folder where the file beside would stand: no put of the file can be made.
fn keeps_what_cannot_be_put<D: Disk>(rt: &HostRuntime, disk: &mut D) -> bool {
    puts(disk, &[("a/x", "1"), ("a/y", "2")])
        && fs::create_dir(rt, "disk_of_failures/a/x%t").is_ok()
        && refuses(disk, &["a/x"])
        && holds(rt.alloc(), disk, &[("a/x", "1")])
        && lists(rt.alloc(), disk, &[("", "", 9, &["a/x", "a/y"])])
}

// A folder in the place of a file: its removal can't be made.
fn lacks_what_cannot_be_removed<D: Disk>(rt: &HostRuntime, disk: &mut D) -> bool {
    fs::remove_file(rt, "disk_of_failures/a/y").is_ok()
        && fs::create_dir(rt, "disk_of_failures/a/y").is_ok()
        && disk.remove("a/y") == Err(DiskFault::Failed)
        && matches!(disk.get(rt.alloc(), "a/y"), Ok(None))
}

// The file stands after all: it is found, and its removal is made again.
fn removes_what_stands_after_all<D: Disk>(rt: &HostRuntime, disk: &mut D) -> bool {
    fs::remove_dir_all(rt, "disk_of_failures/a/y").is_ok()
        && fs::write(rt, "disk_of_failures/a/y", "2").is_ok()
        && holds(rt.alloc(), disk, &[("a/y", "2")])
        && disk.remove("a/y") == Ok(())
        && is_absent(rt, "disk_of_failures/a/y")
        && lists(rt.alloc(), disk, &[("", "", 9, &["a/x"])])
        && disk.remove("a/x") == Ok(())
        && is_absent(rt, "disk_of_failures/a/x")
}

fn leaves_what_is_held(rt: &HostRuntime) -> bool {
    match fresh(rt, "disk_of_failures") {
        Ok(mut disk) => {
            keeps_what_cannot_be_put(rt, &mut disk)
                && lacks_what_cannot_be_removed(rt, &mut disk)
                && removes_what_stands_after_all(rt, &mut disk)
        }
        Err(_) => false,
    }
}

#[test]
fn a_failed_change_leaves_what_is_held(rt: HostRuntime) {
    assert!(rt; leaves_what_is_held(&rt));
}

pub(crate) const ONE: &[(&str, &str)] = &[(".epoch", "e"), ("a/x", "1")];

fn puts_one(rt: &HostRuntime) -> bool {
    match fresh(rt, "disk_of_a_slash") {
        Ok(mut disk) => puts(&mut disk, ONE),
        Err(_) => false,
    }
}

fn finds_one(rt: &HostRuntime) -> bool {
    match RealDisk::below(rt, "disk_of_a_slash/") {
        Ok(mut disk) => {
            lists(rt.alloc(), &mut disk, &[("a", "", 9, &["a/x"])])
                && holds(rt.alloc(), &mut disk, ONE)
        }
        Err(_) => false,
    }
}

#[test]
fn a_folder_may_end_in_a_slash(rt: HostRuntime) {
    assert!(rt; puts_one(&rt));
    assert!(rt; finds_one(&rt));
}
