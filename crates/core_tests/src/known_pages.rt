//! Pages that are known: how many calls of the disk a request makes, by how often its page was asked for before.
ghost use Rattle.std.specs.Prelude.{◌≡◌, IfOk, Some};

use any_config::{Farm, STANDARD_FARM, farm_of, read_any};
use cache_files::OpenFault;
use coherence_core::{Core, Got, Requested};
use http_front::{Framing, OPEN_GET};
use sp_base::{LentHead, Mem, NoMemory, Path, PathFault, Req, TextBuf};
use sp_outside::{Disk, LONGEST_FILE_NAME, MemDisk};
use std::alloc::Global;

// A page, and the .stat file that is asked for it.
const FILES: &[(&str, &str)] = &[
    (".stat", "stat 1 0 0\n"),
    ("en.html", "x"),
    ("en.html%h", "page 1 1 3 1 text/html\n"),
];

const PAGE: &str = "/en.html";

// What a request came to, and how many calls of the disk it made.
#[derive(Clone, Copy, PartialEq, Eq, Debug, Drop)]
enum Seen {
    Hit(u64),
    // A flight was asked, and then lost.
    Asked(u64),
    Other,
}

fn farm(alloc: Global) -> Mem<Farm> {
    match read_any(alloc, STANDARD_FARM.as_bytes()) {
        Ok(top) => farm_of(alloc, &top).or(Err(NoMemory)),
        Err(_) => Err(NoMemory),
    }
}

fn disk_of(alloc: Global) -> MemDisk {
    let mut disk = MemDisk::new(alloc);
    for (name, text) in FILES {
        if !name.is_empty() && name.len() <= LONGEST_FILE_NAME {
            let _ = disk.put(name, text.as_bytes());
        }
    }
    disk
}

fn core_over(alloc: Global, disk: &mut MemDisk) -> Result<Core, OpenFault> {
    let Ok(farm) = farm(alloc) else {
        return Err(OpenFault::NoMemory);
    };
    Core::start(alloc, farm, disk)
}

fn get_of(alloc: Global, path: &str) -> Result<Req, PathFault> {
    let head = LentHead {
        method: "GET",
        target: path,
        minor: 1,
        host: "localhost",
        port: 80,
        slash: false,
        query: None,
        close: false,
    };
    let path = Path::read(alloc, path)?;
    Ok(Req::of(alloc, &head, path, b"", Vec::new(alloc))?)
}

// Asks for a page once.
fn ask(alloc: Global, core: &mut Core, disk: &mut MemDisk, req: &Req) -> Seen {
    let before = disk.calls();
    let Requested {
        got,
        disk_failed: _,
    } = core.request(alloc, disk, req, "127.0.0.1");
    let calls = disk.calls().saturating_sub(before);
    match got {
        Got::Hit(_, _) => Seen::Hit(calls),
        Got::Asked(ticket, _) => {
            core.lose(ticket);
            Seen::Asked(calls)
        }
        Got::Down => Seen::Other,
        Got::Denied => Seen::Other,
        Got::Flush(_, _) => Seen::Other,
        Got::FlushRefused(_) => Seen::Other,
        Got::FlushForbidden => Seen::Other,
        Got::FullAir => Seen::Other,
        Got::FullPurge => Seen::Other,
        Got::Worn => Seen::Other,
        Got::NoMemory => Seen::Other,
    }
}

fn ask_path(alloc: Global, core: &mut Core, disk: &mut MemDisk, path: &str) -> Seen {
    match get_of(alloc, path) {
        Ok(req) => ask(alloc, core, disk, &req),
        Err(_) => Seen::Other,
    }
}

// Asks for these pages in turn, and whether each came to what is wanted.
fn come_to(alloc: Global, rows: &[(&str, Seen)]) -> bool {
    let mut disk = disk_of(alloc);
    let Ok(mut core) = core_over(alloc, &mut disk) else {
        return false;
    };
    for (path, wanted) in rows {
        if ask_path(alloc, &mut core, &mut disk, path) != *wanted {
            return false;
        }
    }
    true
}

// The first hit reads head, .stat file and body, and each until the third the body alone; a later one reads nothing. A page that isn't there is
// looked for once.
const ASKED: &[(&str, Seen)] = &[
    (PAGE, Seen::Hit(3)),
    (PAGE, Seen::Hit(1)),
    (PAGE, Seen::Hit(1)),
    (PAGE, Seen::Hit(0)),
    (PAGE, Seen::Hit(0)),
    ("/missing.html", Seen::Asked(1)),
    ("/missing.html", Seen::Asked(0)),
    (PAGE, Seen::Hit(0)),
];

#[test]
fn a_page_that_is_known_is_not_read_again(rt: HostRuntime) {
    assert!(rt; come_to(rt.alloc(), ASKED));
}

// Whether a page is answered with these bytes.
fn is_answered(alloc: Global, core: &mut Core, disk: &mut MemDisk, row: &(Framing, &str)) -> bool {
    let (framing, wanted) = *row;
    let Ok(req) = get_of(alloc, PAGE) else {
        return false;
    };
    let Requested {
        got,
        disk_failed: _,
    } = core.request(alloc, disk, &req, "127.0.0.1");
    match got {
        Got::Hit(_, answer) => {
            matches!(answer.bytes(alloc, framing), Ok(bytes) if bytes.is(wanted.as_bytes()))
        }
        Got::Asked(ticket, _) => {
            core.lose(ticket);
            false
        }
        Got::Down => false,
        Got::Denied => false,
        Got::Flush(_, _) => false,
        Got::FlushRefused(_) => false,
        Got::FlushForbidden => false,
        Got::FullAir => false,
        Got::FullPurge => false,
        Got::Worn => false,
        Got::NoMemory => false,
    }
}

// Asks for the page once for each row: whether each was answered so.
fn are_answered(alloc: Global, rows: &[(Framing, &str)]) -> bool {
    let mut disk = disk_of(alloc);
    let Ok(mut core) = core_over(alloc, &mut disk) else {
        return false;
    };
    for row in rows {
        if !is_answered(alloc, &mut core, &mut disk, row) {
            return false;
        }
    }
    true
}

const WHOLE: &str = "HTTP/1.1 200 OK\r\nContent-Type: text/html\r\nContent-Length: 1\r\n\r\nx";

// The page's answers, one after the other: from the fourth on the head is kept. It isn't what is sent to HEAD, or before the connection closes.
const ANSWERED: &[(Framing, &str)] = &[
    (OPEN_GET, WHOLE),
    (OPEN_GET, WHOLE),
    (OPEN_GET, WHOLE),
    (OPEN_GET, WHOLE),
    (
        Framing {
            head_only: true,
            close: false,
        },
        "HTTP/1.1 200 OK\r\nContent-Type: text/html\r\nContent-Length: 1\r\n\r\n",
    ),
    (
        Framing {
            head_only: false,
            close: true,
        },
        "HTTP/1.1 200 OK\r\nContent-Type: text/html\r\nContent-Length: 1\r\nConnection: close\r\n\r\nx",
    ),
    (OPEN_GET, WHOLE),
];

#[test]
fn a_page_that_is_known_is_answered_as_before(rt: HostRuntime) {
    assert!(rt; are_answered(rt.alloc(), ANSWERED));
}

// Asks for so many pages that aren't there, each once: whether each was looked for.
fn are_all_asked(alloc: Global, core: &mut Core, disk: &mut MemDisk, most: u32) -> Mem<bool> {
    for n in 0..most {
        let path = TextBuf::from(format!(in alloc; "/missing-{n}.html")?);
        if ask_path(alloc, core, disk, path.text()) != Seen::Asked(1) {
            return Ok(false);
        }
    }
    Ok(true)
}

// After 65,537 pages that aren't there the last one is known still, and the first one is forgotten.
fn notes_are_bounded(alloc: Global) -> bool {
    let mut disk = disk_of(alloc);
    let Ok(mut core) = core_over(alloc, &mut disk) else {
        return false;
    };
    if !matches!(are_all_asked(alloc, &mut core, &mut disk, 65_537), Ok(true)) {
        return false;
    }
    let last = ask_path(alloc, &mut core, &mut disk, "/missing-65536.html");
    let first = ask_path(alloc, &mut core, &mut disk, "/missing-0.html");
    last == Seen::Asked(0) && first == Seen::Asked(1)
}

#[test]
fn notes_of_pages_that_are_missing_are_bounded(rt: HostRuntime) {
    assert!(rt; notes_are_bounded(rt.alloc()));
}
