//! Flushes in slices: what each action takes away, what stays, and a flush with each of its disk calls failing.
use crate::disks::{Held, disk_with, stands};
use cover_rules::{Action, Invalidation, Stamp};
use invalidation::{Purge, PurgeStep};
use sp_base::{Mem, Path, TextBuf};
use sp_outside::{Disk, LONGEST_FILE_NAME, MemDisk, Way};
use std::alloc::Global;

const SITE: Held<'_> = &[
    (".epoch", "epoch 1 1\n"),
    ("content/.stat", "stat 1 1 2\n"),
    ("content/en.html", "en"),
    ("content/en.html%h", "page 1 1 3 2 text/html\n"),
    ("content/en.print.html%h", "a head alone"),
    ("content/en/.stat", "stat 1 1 3\n"),
    ("content/en/_jcr_content/image.png", "image"),
    ("content/en/about.html", "about"),
    ("content/en/about.html%h", "page 1 1 4 5 text/html\n"),
    ("content/env.html", "env"),
    ("content/env.html%h", "page 1 1 5 3 text/html\n"),
];

const OLD_STAT: Option<&str> = Some("stat 1 1 2\n");

const NEW_STAT: Option<&str> = Some("stat 1 1 9\n");

fn flush(alloc: Global, action: Action, handle: &str, only: bool) -> Option<Purge> {
    let Ok(handle) = Path::read(alloc, handle) else {
        return None;
    };
    let inv = Invalidation {
        action,
        handle,
        only,
    };
    Some(Purge::begin(1, inv, Stamp { epoch: 1, count: 9 }))
}

// How the first slice of a flush ended.
fn first_slice(
    alloc: Global,
    disk: &mut MemDisk,
    action: Action,
    handle: &str,
    only: bool,
) -> Option<PurgeStep> {
    match flush(alloc, action, handle, only) {
        Some(mut purge) => Some(purge.slice(alloc, disk)),
        None => None,
    }
}

// The action, the handle, whether the scope is the resource alone, the stamp of the folder after it, and which of four files are gone: the
// page's head, the image in its content, the page below it, and the page beside it.
type Row<'a> = (Action, &'a str, bool, Option<&'a str>, [bool; 4]);

const FLUSHES: &[Row<'_>] = &[
    (
        Action::Activate,
        "/content/en",
        false,
        NEW_STAT,
        [true, true, false, false],
    ),
    (
        Action::Deactivate,
        "/content/en",
        false,
        NEW_STAT,
        [true, true, true, false],
    ),
    (
        Action::Delete,
        "/content/en",
        false,
        NEW_STAT,
        [true, true, true, false],
    ),
    (
        Action::Activate,
        "/content/en",
        true,
        OLD_STAT,
        [true, true, false, false],
    ),
    (
        Action::Activate,
        "/content/en.html",
        false,
        NEW_STAT,
        [true, false, false, false],
    ),
    (
        Action::Delete,
        "/content/other",
        false,
        NEW_STAT,
        [false, false, false, false],
    ),
];

fn is_gone(alloc: Global, disk: &mut MemDisk, name: &str) -> bool {
    stands(alloc, disk, name, None)
}

// Which of the four files are gone.
fn gone(alloc: Global, disk: &mut MemDisk) -> [bool; 4] {
    [
        is_gone(alloc, disk, "content/en.html%h"),
        is_gone(alloc, disk, "content/en/_jcr_content/image.png"),
        is_gone(alloc, disk, "content/en/about.html%h"),
        is_gone(alloc, disk, "content/env.html%h"),
    ]
}

fn keeps_what_is_no_page(alloc: Global, disk: &mut MemDisk) -> bool {
    stands(alloc, disk, ".epoch", Some("epoch 1 1\n"))
        && stands(alloc, disk, "content/en/.stat", Some("stat 1 1 3\n"))
}

fn flushes(alloc: Global, row: &Row<'_>) -> bool {
    let (action, handle, only, stat, wanted) = *row;
    let mut disk = disk_with(alloc, SITE);
    first_slice(alloc, &mut disk, action, handle, only) == Some(PurgeStep::Done)
        && stands(alloc, &mut disk, "content/.stat", stat)
        && keeps_what_is_no_page(alloc, &mut disk)
        && gone(alloc, &mut disk) == wanted
}

#[test]
fn takes_the_pages_of_each_action_away(rt: HostRuntime) {
    for row in FLUSHES {
        assert!(rt; flushes(rt.alloc(), row));
    }
}

// So many files whose names end in this.
fn many_files(alloc: Global, count: u64, ending: &str) -> Mem<MemDisk> {
    let mut disk = MemDisk::new(alloc);
    for n in 0..count {
        let name = TextBuf::from(format!(in alloc; "content/en/page-{n}{ending}")?);
        let text = name.text();
        if !text.is_empty() && text.len() <= LONGEST_FILE_NAME {
            let _ = disk.put(text, b"page");
        }
    }
    Ok(disk)
}

// The steps of a flush over so many files whose names end in this, one slice after the other.
fn steps(alloc: Global, count: u64, ending: &str) -> [Option<PurgeStep>; 3] {
    let Ok(mut disk) = many_files(alloc, count, ending) else {
        return [None, None, None];
    };
    match flush(alloc, Action::Delete, "/content/en", false) {
        Some(mut purge) => [
            Some(purge.slice(alloc, &mut disk)),
            Some(purge.slice(alloc, &mut disk)),
            Some(purge.slice(alloc, &mut disk)),
        ],
        None => [None, None, None],
    }
}

#[test]
fn a_slice_looks_at_64_names(rt: HostRuntime) {
    let (more, done) = (Some(PurgeStep::More), Some(PurgeStep::Done));
    assert!(rt; steps(rt.alloc(), 130, ".html") == [more, more, done]);
    assert!(rt; steps(rt.alloc(), 64, ".html") == [more, done, done]);
    assert!(rt; steps(rt.alloc(), 63, ".html") == [done, done, done]);
    // Names that are no page's count too: were a 65th passed over, the second slice would be the last.
    assert!(rt; steps(rt.alloc(), 128, "/.note") == [more, more, done]);
}

// Which call of the disk fails in the first slice, and how; the stamp of the folder after it, and which of the four files are gone. The calls
// touch two .stat files, list the names of renderings and take one file away for each of three, list the names below, and take three away.
type FailureRow<'a> = (u64, Way, Option<&'a str>, [bool; 4]);

const FAILURES: &[FailureRow<'_>] = &[
    (1, Way::Old, OLD_STAT, [false, false, false, false]),
    (1, Way::New, OLD_STAT, [false, false, false, false]),
    (2, Way::Old, OLD_STAT, [false, false, false, false]),
    (2, Way::New, NEW_STAT, [false, false, false, false]),
    (3, Way::Old, NEW_STAT, [false, false, false, false]),
    (5, Way::Old, NEW_STAT, [false, false, false, false]),
    (5, Way::New, NEW_STAT, [true, false, false, false]),
    (7, Way::Old, NEW_STAT, [true, false, false, false]),
    (8, Way::Old, NEW_STAT, [true, false, false, false]),
    (8, Way::New, NEW_STAT, [true, true, false, false]),
];

fn fails(alloc: Global, row: &FailureRow<'_>) -> bool {
    let (n, way, stat, wanted) = *row;
    let mut disk = disk_with(alloc, SITE);
    disk.fail(n, way);
    first_slice(alloc, &mut disk, Action::Deactivate, "/content/en", false)
        == Some(PurgeStep::DiskFailed)
        && stands(alloc, &mut disk, "content/.stat", stat)
        && gone(alloc, &mut disk) == wanted
}

#[test]
fn a_failed_call_ends_a_slice(rt: HostRuntime) {
    for row in FAILURES {
        assert!(rt; fails(rt.alloc(), row));
    }
}
