//! Pages that are put, read and dropped, and each call with each of its disk calls failing, before and after its change.
ghost use Rattle.std.specs.Prelude.{IfOk, IfSome};
ghost use Rattle.cover_rules.specs.Pages.{IsPageKey};
ghost use Rattle.cache_files.specs.Pages.{IsStorable};

use crate::disks::{Held, disk_with, outcome, stands};
use cache_files::{HeadNote, Page, drop_page, get_head, get_known, get_page, put_page};
use cover_rules::{PageKey, Stamp, page_key};
use docroot_format::FileFault;
use sp_base::{Answer, Mark, Mem, Path, TextBuf};
use sp_outside::{MemDisk, Way};
use std::alloc::Global;
use test_values::answer_of;

const BODY: &str = "content/en.html";

const HEAD: &str = "content/en.html%h";

const FRESH: Held<'_> = &[("content/.stat", "stat 1 1 2\n")];

const OLD: Held<'_> = &[
    ("content/.stat", "stat 1 1 2\n"),
    (BODY, "old"),
    (HEAD, "page 1 1 3 3 text/plain\n"),
];

const OLD_HEAD: Option<&str> = Some("page 1 1 3 3 text/plain\n");

const OLD_BODY: Option<&str> = Some("old");

const NEW_HEAD: Option<&str> = Some("page 1 1 4 1 text/html;charset=utf-8\n");

const NEW_BODY: Option<&str> = Some("x");

fn key(alloc: Global) -> Option<PageKey>
    ensures { IfSome result IsPageKey }
{
    let Ok(path) = Path::read(alloc, "/content/en.html") else {
        return None;
    };
    let Ok(Some(key)) = page_key(alloc, &path) else {
        return None;
    };
    Some(key)
}

fn answer(alloc: Global) -> Mem<Answer>
    ensures { IfOk result IsStorable }
{
    answer_of(alloc, 200, "text/html;charset=utf-8", "", Mark::Plain, "x")
}

// A page's head and body, and the file beside them.
fn stand(alloc: Global, disk: &mut MemDisk, head: Option<&str>, body: Option<&str>) -> bool {
    stands(alloc, disk, HEAD, head)
        && stands(alloc, disk, BODY, body)
        && stands(alloc, disk, "content/.stat", Some("stat 1 1 2\n"))
}

fn put_at(alloc: Global, disk: &mut MemDisk, key: &PageKey) -> Result<(), FileFault>
    requires { IsPageKey key.now }
{
    let answer = answer(alloc)?;
    put_page(alloc, disk, key, Stamp { epoch: 1, count: 4 }, &answer)
}

fn put(alloc: Global, disk: &mut MemDisk) -> Result<(), FileFault> {
    match key(alloc) {
        Some(key) => put_at(alloc, disk, &key),
        None => Err(FileFault::NoMemory),
    }
}

fn get(alloc: Global, disk: &mut MemDisk) -> Result<Option<Page>, FileFault> {
    match key(alloc) {
        Some(key) => get_page(alloc, disk, &key),
        None => Err(FileFault::NoMemory),
    }
}

fn head(alloc: Global, disk: &mut MemDisk) -> Result<Option<HeadNote>, FileFault> {
    match key(alloc) {
        Some(key) => get_head(alloc, disk, &key),
        None => Err(FileFault::NoMemory),
    }
}

fn old_head(alloc: Global) -> Mem<HeadNote> {
    Ok(HeadNote {
        stamp: Stamp { epoch: 1, count: 3 },
        kind: TextBuf::of(alloc, "text/plain")?,
        length: 3,
    })
}

// The page under the head of the old page.
fn known(alloc: Global, disk: &mut MemDisk) -> Result<Option<Page>, FileFault> {
    match (key(alloc), old_head(alloc)) {
        (Some(key), Ok(head)) => get_known(alloc, disk, &key, &head),
        _ => Err(FileFault::NoMemory),
    }
}

fn take_away(alloc: Global, disk: &mut MemDisk) -> Result<(), FileFault> {
    match key(alloc) {
        Some(key) => drop_page(alloc, disk, &key),
        None => Err(FileFault::NoMemory),
    }
}

fn is_page(found: &Result<Option<Page>, FileFault>, count: u64, kind: &str, body: &str) -> bool {
    match found {
        Ok(Some(page)) => {
            page.stamp == Stamp { epoch: 1, count }
                && page.answer.status == 200
                && page.answer.kind.text() == kind
                && page.answer.body.bytes() == body.as_bytes()
        }
        _ => false,
    }
}

fn puts_a_page(alloc: Global, disk: &mut MemDisk) -> bool {
    let before = disk.calls();
    put(alloc, disk) == Ok(())
        && disk.calls().saturating_sub(before) == 3
        && stand(alloc, disk, NEW_HEAD, NEW_BODY)
        && is_page(&get(alloc, disk), 4, "text/html;charset=utf-8", "x")
}

fn drops_a_page(alloc: Global, disk: &mut MemDisk) -> bool {
    let before = disk.calls();
    take_away(alloc, disk) == Ok(())
        && disk.calls().saturating_sub(before) == 2
        && stand(alloc, disk, None, None)
}

fn keeps_a_page(alloc: Global) -> bool {
    let mut disk = disk_with(alloc, FRESH);
    puts_a_page(alloc, &mut disk) && drops_a_page(alloc, &mut disk)
}

fn is_old_head(found: &Result<Option<HeadNote>, FileFault>) -> bool {
    match found {
        Ok(Some(head)) => {
            head.stamp == Stamp { epoch: 1, count: 3 }
                && head.length == 3
                && head.kind.text() == "text/plain"
        }
        _ => false,
    }
}

fn reads_a_head(alloc: Global, disk: &mut MemDisk) -> bool {
    let before = disk.calls();
    is_old_head(&head(alloc, disk)) && disk.calls().saturating_sub(before) == 1
}

fn reads_a_body(alloc: Global, disk: &mut MemDisk) -> bool {
    let before = disk.calls();
    is_page(&known(alloc, disk), 3, "text/plain", "old") && disk.calls().saturating_sub(before) == 1
}

fn reads_a_head_by_itself(alloc: Global) -> bool {
    let mut disk = disk_with(alloc, OLD);
    reads_a_head(alloc, &mut disk) && reads_a_body(alloc, &mut disk)
}

#[test]
fn keeps_pages(rt: HostRuntime) {
    assert!(rt; keeps_a_page(rt.alloc()));
    assert!(rt; reads_a_head_by_itself(rt.alloc()));
}

// Makes the call that a word names.
fn call(alloc: Global, disk: &mut MemDisk, word: &str) -> Result<(), FileFault> {
    match word {
        "put" => put(alloc, disk),
        "drop" => take_away(alloc, disk),
        "get" => outcome(get(alloc, disk)),
        "head" => outcome(head(alloc, disk)),
        _ => outcome(known(alloc, disk)),
    }
}

// What the disk holds, a call, in which call of the disk it fails and how, and what head and body are then there.
type FailureRow<'a> = (
    Held<'a>,
    &'a str,
    u64,
    Way,
    Option<&'a str>,
    Option<&'a str>,
);

const FAILURES: &[FailureRow<'_>] = &[
    (OLD, "put", 1, Way::Old, OLD_HEAD, OLD_BODY),
    (OLD, "put", 1, Way::New, None, OLD_BODY),
    (OLD, "put", 2, Way::Old, None, OLD_BODY),
    (OLD, "put", 2, Way::New, None, NEW_BODY),
    (OLD, "put", 3, Way::Old, None, NEW_BODY),
    (OLD, "put", 3, Way::New, NEW_HEAD, NEW_BODY),
    (FRESH, "put", 2, Way::New, None, NEW_BODY),
    (OLD, "drop", 1, Way::Old, OLD_HEAD, OLD_BODY),
    (OLD, "drop", 1, Way::New, None, OLD_BODY),
    (OLD, "drop", 2, Way::Old, None, OLD_BODY),
    (OLD, "drop", 2, Way::New, None, None),
    (OLD, "get", 1, Way::Old, OLD_HEAD, OLD_BODY),
    (OLD, "get", 1, Way::New, OLD_HEAD, OLD_BODY),
    (OLD, "get", 2, Way::Old, OLD_HEAD, OLD_BODY),
    (OLD, "get", 2, Way::New, OLD_HEAD, OLD_BODY),
    (OLD, "head", 1, Way::Old, OLD_HEAD, OLD_BODY),
    (OLD, "head", 1, Way::New, OLD_HEAD, OLD_BODY),
    (OLD, "known", 1, Way::Old, OLD_HEAD, OLD_BODY),
    (OLD, "known", 1, Way::New, OLD_HEAD, OLD_BODY),
];

// A page counts where its head is there.
fn counts(alloc: Global, disk: &mut MemDisk) -> bool {
    matches!(get(alloc, disk), Ok(Some(_)))
}

fn fails(alloc: Global, disk: &mut MemDisk, row: &FailureRow<'_>) -> bool {
    let (_, word, n, way, head, body) = *row;
    disk.fail(n, way);
    let before = disk.calls();
    call(alloc, disk, word) == Err(FileFault::Disk)
        && disk.calls().saturating_sub(before) == n
        && stand(alloc, disk, head, body)
        && counts(alloc, disk) == head.is_some()
}

fn leaves(alloc: Global, row: &FailureRow<'_>) -> bool {
    let mut disk = disk_with(alloc, row.0);
    fails(alloc, &mut disk, row)
}

#[test]
fn calls_fail_in_each_call_of_the_disk(rt: HostRuntime) {
    for row in FAILURES {
        assert!(rt; leaves(rt.alloc(), row));
    }
}

// Files, whether a page counts, and how many calls of the disk tell.
type CountRow<'a> = (Held<'a>, bool, u64);

const COUNTED: &[CountRow<'_>] = &[
    (OLD, true, 2),
    (&[(BODY, "old")], false, 1),
    (&[(HEAD, "page 1 1 3 3 a/b\n")], false, 2),
    (&[(HEAD, "page 1 1 3 3 a/b\nx"), (BODY, "old")], false, 1),
    (&[(HEAD, "page 1 1 3 4 a/b\n"), (BODY, "old")], false, 2),
    (&[(HEAD, "page 1 1 03 3 a/b\n"), (BODY, "old")], false, 1),
    (&[(HEAD, "page 2 1 3 3 a/b\n"), (BODY, "old")], false, 1),
    (
        &[
            (HEAD, "page 1 1 18446744073709551616 3 a/b\n"),
            (BODY, "old"),
        ],
        false,
        1,
    ),
    (
        &[(HEAD, "page 1 0 18446744073709551615 0 \n"), (BODY, "")],
        true,
        2,
    ),
];

fn is_counted(alloc: Global, row: &CountRow<'_>) -> bool {
    let (files, wanted, calls) = *row;
    let mut disk = disk_with(alloc, files);
    let before = disk.calls();
    counts(alloc, &mut disk) == wanted && disk.calls().saturating_sub(before) == calls
}

#[test]
fn a_body_is_read_after_a_good_head(rt: HostRuntime) {
    for row in COUNTED {
        assert!(rt; is_counted(rt.alloc(), row));
    }
}
