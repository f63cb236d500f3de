//! Clients of whom a call fails: each of seven comes, asks for the page twice, and goes.
use crate::serving::{PAGE, Row, happenings, served, world_of};
use connections::ConnectionId;
use outside_world::{Happening, MemWorld, WorldEntry};
use serve_loop::ServeEnd;
use sp_base::Mem;
use std::alloc::Global;
use std::hash::RandomState;
use std::test::Fail;

const ASKS: &[u8] = b"GET /a.html HTTP/1.1\r\nHost: localhost\r\n\r\n";

const COMING: &[Row<'_>] = &[
    Row::Opened(1),
    Row::Piece(1, ASKS),
    Row::Piece(1, ASKS),
    Row::Gone(1),
    Row::Opened(2),
    Row::Piece(2, ASKS),
    Row::Piece(2, ASKS),
    Row::Gone(2),
    Row::Opened(3),
    Row::Piece(3, ASKS),
    Row::Piece(3, ASKS),
    Row::Gone(3),
    Row::Opened(4),
    Row::Piece(4, ASKS),
    Row::Piece(4, ASKS),
    Row::Gone(4),
    Row::Opened(5),
    Row::Piece(5, ASKS),
    Row::Piece(5, ASKS),
    Row::Gone(5),
    Row::Opened(6),
    Row::Piece(6, ASKS),
    Row::Piece(6, ASKS),
    Row::Gone(6),
    Row::Opened(7),
    Row::Piece(7, ASKS),
    Row::Piece(7, ASKS),
    Row::Gone(7),
];

// What a log tells of a client.
#[derive(Clone, Copy, Drop)]
enum Told {
    Opened,
    Asked,
    Gone,
    Sent,
    Unsent,
    Shut,
}

// A client to whom all was sent. One to whom the first answer couldn't be sent is shut in its place, and gone before it asks again; one to
// whom the second couldn't is shut then.
const ALL_SENT: &[Told] = &[
    Told::Opened,
    Told::Asked,
    Told::Sent,
    Told::Asked,
    Told::Sent,
    Told::Gone,
];

const FIRST_UNSENT: &[Told] = &[
    Told::Opened,
    Told::Asked,
    Told::Unsent,
    Told::Shut,
    Told::Asked,
    Told::Gone,
];

const SECOND_UNSENT: &[Told] = &[
    Told::Opened,
    Told::Asked,
    Told::Sent,
    Told::Asked,
    Told::Unsent,
    Told::Shut,
    Told::Gone,
];

fn has_come(happening: &Happening, conn: ConnectionId, told: Told) -> bool {
    match (happening, told) {
        (Happening::Opened(c, _), Told::Opened) => *c == conn,
        (Happening::Piece(c, bytes), Told::Asked) => *c == conn && bytes.bytes() == ASKS,
        (Happening::Gone(c), Told::Gone) => *c == conn,
        _ => false,
    }
}

fn is_told(entry: &WorldEntry, conn: ConnectionId, told: Told) -> bool {
    match (entry, told) {
        (WorldEntry::Came(happening), _) => has_come(happening, conn, told),
        (WorldEntry::Sent(c, bytes), Told::Sent) => {
            *c == conn && bytes.bytes() == PAGE.as_bytes()
        }
        (WorldEntry::Unsent(c), Told::Unsent) | (WorldEntry::Shut(c), Told::Shut) => *c == conn,
        _ => false,
    }
}

fn is_of(part: &[WorldEntry], conn: ConnectionId, rows: &[Told]) -> bool {
    let mut both = part.iter().zip(rows);
    both.all(|(entry, told)| is_told(entry, conn, *told))
}

// The numbers of the clients, in the order in which they come.
const CLIENTS: &[u32] = &[1, 2, 3, 4, 5, 6, 7];

// Whether a log tells of the clients one after another that all was sent, as far as it goes.
fn begins_well(log: &[WorldEntry]) -> bool {
    let mut rest = log;
    for number in CLIENTS {
        let (part, after) = rest.split_at(ALL_SENT.len().min(rest.len()));
        if !is_of(part, ConnectionId::new(*number), ALL_SENT) {
            return false;
        }
        rest = after;
    }
    rest.is_empty()
}

// Whether a log tells of the clients one after another, of one of them these rows, and of the others that all was sent.
fn tells(log: &[WorldEntry], client: ConnectionId, rows: &[Told]) -> bool {
    let mut rest = log;
    for number in CLIENTS {
        let conn = ConnectionId::new(*number);
        let wanted = if conn == client { rows } else { ALL_SENT };
        if rest.len() < wanted.len() {
            return false;
        }
        let (part, after) = rest.split_at(wanted.len());
        if !is_of(part, conn, wanted) {
            return false;
        }
        rest = after;
    }
    rest.is_empty()
}

fn world(alloc: Global, next_fails: u64, send_fails: u64) -> Mem<Option<MemWorld>> {
    world_of(alloc, happenings(alloc, COMING)?, next_fails, send_fails)
}

// Which call of `next` fails, and how many entries the log has then: a turn of a client that comes or goes has one, one that asks has two.
const NEXT_FAILS: &[(u64, usize)] = &[
    (1, 0),
    (2, 1),
    (3, 3),
    (4, 5),
    (5, 6),
    (6, 7),
    (7, 9),
    (8, 11),
    (9, 12),
    (10, 13),
    (11, 15),
    (12, 17),
];

fn ends_there(alloc: Global, seeds: RandomState, call: u64, entries: usize) -> bool {
    match world(alloc, call, 0) {
        Ok(Some(mut world)) => {
            matches!(
                served(alloc, seeds, &mut world, 28),
                Some(ServeEnd::WorldFailed)
            ) && world.log().len() == entries
                && begins_well(world.log().as_slice())
        }
        _ => false,
    }
}

fn end_where_next_fails(alloc: Global, seeds: RandomState) -> bool {
    NEXT_FAILS.iter().all(|(call, entries)| ends_there(alloc, seeds, *call, *entries))
}

#[test]
fn a_world_that_fails_ends_the_serving(rt: HostRuntime) -> Result<(), Fail> {
    let seeds = RandomState::new(&rt)?;
    assert!(rt; end_where_next_fails(rt.alloc(), seeds));
    Ok(())
}

// Which sending fails, the number of the client to whom it is, and what is told of that client. A call of number 0 never comes.
const SEND_FAILS: &[(u64, u32, &[Told])] = &[
    (0, 1, ALL_SENT),
    (1, 1, FIRST_UNSENT),
    (2, 1, SECOND_UNSENT),
    (3, 2, FIRST_UNSENT),
    (4, 2, SECOND_UNSENT),
    (5, 3, FIRST_UNSENT),
    (6, 3, SECOND_UNSENT),
    (7, 4, FIRST_UNSENT),
    (8, 4, SECOND_UNSENT),
    (9, 5, FIRST_UNSENT),
    (10, 5, SECOND_UNSENT),
    (11, 6, FIRST_UNSENT),
    (12, 6, SECOND_UNSENT),
];

fn goes_on(
    alloc: Global,
    seeds: RandomState,
    call: u64,
    client: ConnectionId,
    rows: &[Told],
) -> bool {
    match world(alloc, 0, call) {
        Ok(Some(mut world)) => {
            matches!(served(alloc, seeds, &mut world, 28), Some(ServeEnd::Turns))
                && tells(world.log().as_slice(), client, rows)
        }
        _ => false,
    }
}

fn go_on_where_sendings_fail(alloc: Global, seeds: RandomState) -> bool {
    SEND_FAILS.iter().all(|(call, number, rows)| {
        goes_on(alloc, seeds, *call, ConnectionId::new(*number), *rows)
    })
}

#[test]
fn a_sending_that_fails_is_for_its_client_alone(rt: HostRuntime) -> Result<(), Fail> {
    let seeds = RandomState::new(&rt)?;
    assert!(rt; go_on_where_sendings_fail(rt.alloc(), seeds));
    Ok(())
}
