//! What the cache answers its connections.
ghost use Rattle.std.specs.Prelude.{◌≡◌, ◌==◌, false, true};
ghost use Rattle.connections.specs.declared.awaited.Awaited.TheVariants.{Flight as flight_awaited, Flush as flush_awaited};
ghost use Rattle.connections.specs.declared.place.Reply.TheVariants.{Awaits, Says};
ghost use Rattle.http_front.specs.Faults.{insufficient_storage};
ghost use Rattle.run_events.specs.declared.note.Note.TheVariants.{Ask as ask_note, Flush as flush_note, Hit as hit_note, Local};
ghost use Rattle.front.specs.Caches.{local_reply as reply_of, only_disk};

use connections::{Awaited, ConnectionId, FlightId, FlushId, Reply};
use cover_rules::{Invalidation, PageKey};
use http_front::{INSUFFICIENT_STORAGE, PreparedAnswer};
use run_events::{Conditions, Note};

/// What a request is answered.
#[derive(Drop)]
pub(crate) struct Answered {
    /// The note that says so.
    pub(crate) note: Note,
    /// What its place holds.
    pub(crate) reply: Reply,
    /// The connection closes after it, whatever the request asks for.
    pub(crate) closes: bool,
    /// It is a flush whose first slice is due.
    pub(crate) slices: bool,
    pub(crate) conditions: Conditions,
}

/// The end of what a connection waits for, or a slice that leaves a flush unfinished.
#[derive(Drop)]
pub(crate) struct Ended {
    /// The note that says so.
    pub(crate) note: Note,
    pub(crate) conditions: Conditions,
    /// The connection that waits.
    pub(crate) connection: ConnectionId,
    pub(crate) awaited: Awaited,
    /// What answers it, unless it waits on.
    pub(crate) reply: Option<Reply>,
}

// A call in which memory sufficed ran under this.
pub(crate) fn not_out_of_memory(disk_failed: bool) -> Conditions
    ensures { result ≡ only_disk disk_failed }
{
    Conditions {
        disk_failed,
        out_of_memory: false,
    }
}

// A call in which memory ran out.
pub(crate) fn out_of_memory(disk_failed: bool) -> Conditions
    ensures { result ≡ record { disk_failed = disk_failed; out_of_memory = true } }
{
    Conditions {
        disk_failed,
        out_of_memory: true,
    }
}

impl Answered {
    /// By a flight.
    pub(crate) fn asked(
        c: ConnectionId,
        number: FlightId,
        key: Option<PageKey>,
        conditions: Conditions,
    ) -> Answered
        ensures { result ≡ record { note = ask_note number c key; reply = Awaits (flight_awaited number); closes = false; slices = false; conditions = conditions } }
    {
        Answered {
            note: Note::Ask(number, c, key),
            reply: Reply::Awaits(Awaited::Flight(number)),
            closes: false,
            slices: false,
            conditions,
        }
    }

    /// By the end of a flush, whose first slice is due where no older one is unfinished.
    pub(crate) fn begun(
        c: ConnectionId,
        number: FlushId,
        inv: Invalidation,
        slices: bool,
        conditions: Conditions,
    ) -> Answered
        ensures { result ≡ record { note = flush_note number c inv; reply = Awaits (flush_awaited number); closes = false; slices = slices; conditions = conditions } }
    {
        Answered {
            note: Note::Flush(number, c, inv),
            reply: Reply::Awaits(Awaited::Flush(number)),
            closes: false,
            slices,
            conditions,
        }
    }

    /// By a page from the store.
    pub(crate) fn hit(
        c: ConnectionId,
        key: PageKey,
        answer: PreparedAnswer,
        conditions: Conditions,
    ) -> Answered
        ensures { result ≡ record { note = hit_note c key; reply = Says answer; closes = false; slices = false; conditions = conditions } }
    {
        Answered {
            note: Note::Hit(c, key),
            reply: Reply::Says(answer),
            closes: false,
            slices: false,
            conditions,
        }
    }

    /// By the front itself, with this status. After 507 the connection closes.
    pub(crate) fn local(c: ConnectionId, status: u16, conditions: Conditions) -> Answered
        ensures { result ≡ record { note = Local c status; reply = reply_of status; closes = status == insufficient_storage; slices = false; conditions = conditions } }
    {
        Answered {
            note: Note::Local(c, status),
            reply: local_reply(status),
            closes: status == INSUFFICIENT_STORAGE,
            slices: false,
            conditions,
        }
    }
}

/// What the front answers by itself. It is made when it is sent, so that no memory is needed for it here.
pub(crate) fn local_reply(status: u16) -> Reply
    ensures { result ≡ reply_of status }
{
    if status == INSUFFICIENT_STORAGE {
        Reply::Fixed
    } else {
        Reply::Own(status)
    }
}
