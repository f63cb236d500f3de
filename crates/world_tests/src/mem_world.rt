//! A world in memory: what comes from it, which of its calls fail, and its log.
use connection_ids::ConnectionId;
use outside_world::{
    Happening, HappeningList, MemWorld, SendFault, Work, World, WorldEntry, WorldFault, WorldLog,
    may_come,
};
use sp_base::{ByteBuf, CallList, Mem, TextBuf};
use std::alloc::Global;

// A happening as a test writes it, with the number of its connection.
#[derive(Clone, Copy, Drop)]
enum Row<'a> {
    Opened(u32, &'a str),
    Piece(u32, &'a str),
    Gone(u32),
    Quiet,
}

fn happening(alloc: Global, row: &Row<'_>) -> Mem<Happening> {
    match row {
        Row::Opened(number, peer) => {
            let peer = TextBuf::of(alloc, peer)?;
            Ok(Happening::Opened(ConnectionId::new(*number), peer))
        }
        Row::Piece(number, text) => {
            let bytes = ByteBuf::of(alloc, text.as_bytes())?;
            Ok(Happening::Piece(ConnectionId::new(*number), bytes))
        }
        Row::Gone(number) => Ok(Happening::Gone(ConnectionId::new(*number))),
        Row::Quiet => Ok(Happening::Quiet),
    }
}

fn happenings(alloc: Global, rows: &[Row<'_>]) -> Mem<HappeningList> {
    let mut list = HappeningList::new(alloc);
    for row in rows {
        list.push(happening(alloc, row)?)?;
    }
    Ok(list)
}

fn calls(alloc: Global, numbers: &[u64]) -> Mem<CallList> {
    let mut list = CallList::new(alloc);
    for number in numbers {
        list.push(*number)?;
    }
    Ok(list)
}

fn world(
    alloc: Global,
    rows: &[Row<'_>],
    next_fails: &[u64],
    send_fails: &[u64],
) -> Mem<Option<MemWorld>> {
    let happenings = happenings(alloc, rows)?;
    let next_fails = calls(alloc, next_fails)?;
    let send_fails = calls(alloc, send_fails)?;
    if !may_come(&happenings) {
        return Ok(None);
    }
    Ok(Some(MemWorld::new(alloc, happenings, next_fails, send_fails)))
}

fn is_row(happening: &Happening, row: &Row<'_>) -> bool {
    match (happening, row) {
        (Happening::Opened(conn, peer), Row::Opened(wanted, text)) => {
            conn.number() == *wanted && peer.text() == *text
        }
        (Happening::Piece(conn, bytes), Row::Piece(wanted, text)) => {
            conn.number() == *wanted && bytes.bytes() == text.as_bytes()
        }
        (Happening::Gone(conn), Row::Gone(wanted)) => conn.number() == *wanted,
        (Happening::Quiet, Row::Quiet) => true,
        _ => false,
    }
}

// What stands in a log, as a test writes it, with the number of its connection.
#[derive(Clone, Copy, Drop)]
enum Told<'a> {
    Came(Row<'a>),
    Sent(u32, &'a str),
    Unsent(u32),
    Shut(u32),
}

fn is_told(entry: &WorldEntry, told: &Told<'_>) -> bool {
    match (entry, told) {
        (WorldEntry::Came(happening), Told::Came(row)) => is_row(happening, row),
        (WorldEntry::Sent(conn, bytes), Told::Sent(wanted, text)) => {
            conn.number() == *wanted && bytes.bytes() == text.as_bytes()
        }
        (WorldEntry::Unsent(conn), Told::Unsent(wanted)) => conn.number() == *wanted,
        (WorldEntry::Shut(conn), Told::Shut(wanted)) => conn.number() == *wanted,
        _ => false,
    }
}

fn tells(log: &WorldLog, wanted: &[Told<'_>]) -> bool {
    let mut both = log.as_slice().iter().zip(wanted);
    log.len() == wanted.len() && both.all(|(entry, told)| is_told(entry, told))
}

fn comes<W: World>(alloc: Global, world: &mut W, row: &Row<'_>) -> bool {
    matches!(world.next(alloc), Ok(happening) if is_row(&happening, row))
}

const FIRST: Row<'_> = Row::Opened(7, "192.0.2.1");

const SECOND: Row<'_> = Row::Piece(7, "GET");

const THIRD: Row<'_> = Row::Gone(7);

const ROWS: &[Row<'_>] = &[FIRST, SECOND, THIRD, FIRST];

fn gives_rows<W: World>(alloc: Global, world: &mut W) -> bool {
    world.expect(Work::Busy);
    comes(alloc, world, &FIRST)
        && matches!(world.next(alloc), Err(WorldFault::Failed))
        && comes(alloc, world, &SECOND)
        && comes(alloc, world, &THIRD)
        && comes(alloc, world, &FIRST)
        && comes(alloc, world, &Row::Quiet)
        && comes(alloc, world, &Row::Quiet)
}

const GIVEN: &[Told<'_>] = &[
    Told::Came(FIRST),
    Told::Came(SECOND),
    Told::Came(THIRD),
    Told::Came(FIRST),
    Told::Came(Row::Quiet),
    Told::Came(Row::Quiet),
];

fn gives_and_tells(alloc: Global) -> bool {
    match world(alloc, ROWS, &[2], &[]) {
        Ok(Some(mut world)) => gives_rows(alloc, &mut world) && tells(world.log(), GIVEN),
        _ => false,
    }
}

fn sends_rows<W: World>(alloc: Global, world: &mut W) -> bool {
    let client = ConnectionId::new(7);
    let is_sent = comes(alloc, world, &FIRST)
        && world.send(alloc, client, b"one") == Ok(())
        && world.send(alloc, client, b"two") == Err(SendFault::Failed)
        && world.send_both(alloc, client, b"thr", b"ee") == Ok(())
        && world.send_both(alloc, client, b"fo", b"ur") == Err(SendFault::Failed);
    world.shut(ConnectionId::new(8));
    world.shut(client);
    world.shut(client);
    is_sent
}

const SENT: &[Told<'_>] = &[
    Told::Came(FIRST),
    Told::Sent(7, "one"),
    Told::Unsent(7),
    Told::Sent(7, "three"),
    Told::Unsent(7),
    Told::Shut(7),
];

fn sends_and_tells(alloc: Global) -> bool {
    match world(alloc, ROWS, &[], &[2, 4]) {
        Ok(Some(mut world)) => sends_rows(alloc, &mut world) && tells(world.log(), SENT),
        _ => false,
    }
}

// One that is gone can't be shut, and one that opened again can.
fn ends_rows<W: World>(alloc: Global, world: &mut W) -> bool {
    let is_gone = comes(alloc, world, &FIRST)
        && comes(alloc, world, &SECOND)
        && comes(alloc, world, &THIRD);
    world.shut(ConnectionId::new(7));
    let is_back = comes(alloc, world, &FIRST);
    world.shut(ConnectionId::new(7));
    is_gone && is_back
}

const ENDED: &[Told<'_>] = &[
    Told::Came(FIRST),
    Told::Came(SECOND),
    Told::Came(THIRD),
    Told::Came(FIRST),
    Told::Shut(7),
];

fn ends_and_tells(alloc: Global) -> bool {
    match world(alloc, ROWS, &[], &[]) {
        Ok(Some(mut world)) => ends_rows(alloc, &mut world) && tells(world.log(), ENDED),
        _ => false,
    }
}

#[test]
fn a_world_in_memory(rt: HostRuntime) {
    assert!(rt; gives_and_tells(rt.alloc()));
    assert!(rt; sends_and_tells(rt.alloc()));
    assert!(rt; ends_and_tells(rt.alloc()));
}

// Happenings, and whether they may come.
const LISTS: &[(&[Row<'_>], bool)] = &[
    (&[], true),
    (ROWS, true),
    (&[Row::Opened(1, ""), Row::Opened(2, ""), Row::Quiet], true),
    (
        &[Row::Gone(1), Row::Opened(1, ""), Row::Gone(1), Row::Gone(1)],
        true,
    ),
    (
        &[Row::Opened(1, ""), Row::Gone(2), Row::Opened(1, "")],
        false,
    ),
    (&[Row::Piece(1, "")], false),
];

fn are_as_listed(alloc: Global) -> bool {
    for (rows, wanted) in LISTS {
        match happenings(alloc, rows) {
            Ok(list) if may_come(&list) == *wanted => {}
            _ => return false,
        }
    }
    true
}

// A piece of so many bytes.
fn may_have(alloc: Global, length: usize) -> Mem<bool> {
    let bytes = ByteBuf::from(vec![in alloc; 0u8; length]?);
    let mut list = HappeningList::new(alloc);
    list.push(Happening::Piece(ConnectionId::new(1), bytes))?;
    Ok(may_come(&list))
}

#[test]
fn tells_what_may_come(rt: HostRuntime) {
    assert!(rt; are_as_listed(rt.alloc()));
    assert!(rt; matches!(may_have(rt.alloc(), 65_536), Ok(true)));
    assert!(rt; matches!(may_have(rt.alloc(), 65_537), Ok(false)));
}
