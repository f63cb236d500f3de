//! The ends of what connections wait for: flights that land or are lost, and slices of flushes.
ghost use Rattle.std.specs.Prelude.{◌≡◌, ◌≢◌, ◌+◌, ◌&&◌, [], false, IfNone, IfSome, IsSome, IsTrue, None, OnSome, Some, length, position};
ghost use Rattle.run_events.specs.declared.flying.Flying as model;
ghost use Rattle.run_events.specs.Events as events;
ghost use Rattle.run_events.specs.Events.{is_any, is_rendered};
ghost use Rattle.front.specs.Caches.{is_ending, landing_end_of, left_after, slice_end_of, DeliversPicked, HasNoFlush, LosesFirst, LosesPicked, SlicesOldest};
ghost use Rattle.front.specs.Uses.{UsesDisk};

use crate::answered::{Ended, not_out_of_memory, out_of_memory};
use crate::cache::Cache;
use crate::ticketed::{TicketedFlight, first_picked, first_rendered};
use coherence_core::{Landed, Purged};
use connections::{Awaited, ConnectionId, FlightId, Reply};
use flights::tickets_have_the_places_of_their_flights;
use http_front::{INSUFFICIENT_STORAGE, PreparedAnswer};
use run_events::{Failure, Flushing, Flying, Note, Pick};
use sp_base::Answer;
use sp_outside::Disk;
use std::alloc::Global;

impl Cache {
    /// A rendered flight lands, the first that is asked for.
    pub(crate) fn deliver<D: Disk>(
        &mut self,
        alloc: Global,
        disk: &mut D,
        pick: &Pick,
    ) -> Option<Ended>
        ensures landing { IfSome result (DeliversPicked D.files D.faults pick.now self.old disk.old self.new disk.new) }
        ensures none { IfNone result (position (λ flying. events.is_picked pick.now flying && is_rendered flying) self.old.flying ≡ None) }
        ensures same { IfNone result ((self.new ≡ self.old) × (D.files disk.new ≡ D.files disk.old) × (D.faults disk.new ≡ D.faults disk.old)) }
        ensures disk { UsesDisk (D.faults disk.old) (D.faults disk.new) (D.calls disk.old) (D.calls disk.new) }
    {
        tickets_have_the_places_of_their_flights();
        let at = first_rendered(&self.flights, pick)?;
        let TicketedFlight { ticket, flying } = self.flights.remove(at);
        let number = flying.number;
        let connection = flying.connection;
        let answer = rendered_answer(flying);
        let landed = self.core.deliver(alloc, disk, ticket, &answer);
        Some(landing_end(number, connection, answer, landed))
    }

    /// A flight is lost, the first that is asked for.
    pub(crate) fn lose(&mut self, pick: &Pick) -> Option<Ended>
        ensures loss { IfSome result (LosesPicked pick.now self.old self.new) }
        ensures none { IfNone result (position (λ flying. events.is_picked pick.now flying && is_any flying) self.old.flying ≡ None) }
        ensures same { IfNone result (self.new ≡ self.old) }
        ensures fewer { OnSome result (length self.new.flying + 1 ≡ length self.old.flying) }
        ensures first { IfSome result (LosesFirst pick.now self.old self.new) }
        ensures flushes { self.new.flushes ≡ self.old.flushes }
    {
        tickets_have_the_places_of_their_flights();
        let at = first_picked(&self.flights, pick)?;
        let TicketedFlight { ticket, flying } = self.flights.remove(at);
        self.core.lose(ticket);
        Some(Ended {
            note: Note::Lost(flying.number),
            conditions: not_out_of_memory(false),
            connection: flying.connection,
            awaited: Awaited::Flight(flying.number),
            reply: Some(Reply::Own(502)),
        })
    }

    /// Whether a flush is unfinished.
    pub(crate) fn is_purging(&self) -> bool
        ensures some { IsTrue result → self.now.flushes ≢ [] }
        ensures none { result ≡ false → self.now.flushes ≡ [] }
    {
        !self.flushes.is_empty()
    }

    /// The oldest unfinished flush gets a slice.
    pub(crate) fn slice<D: Disk>(&mut self, alloc: Global, disk: &mut D) -> Option<Ended>
        ensures slice { IfSome result (SlicesOldest D.files D.faults self.old disk.old self.new disk.new) }
        ensures none { IfNone result (HasNoFlush D.files D.faults self.old disk.old self.new disk.new) }
        ensures quiet { IfNone result (D.faults disk.new ≡ D.faults disk.old) }
        ensures disk { UsesDisk (D.faults disk.old) (D.faults disk.new) (D.calls disk.old) (D.calls disk.new) }
    {
        if self.flushes.is_empty() {
            return None;
        }
        let flush = self.flushes[0];
        let purged = self.core.purge_step(alloc, disk);
        leave_unfinished(&mut self.flushes, &purged);
        slice_end(flush, purged)
    }
}

// The answer of a flight that is rendered.
fn rendered_answer(flying: Flying) -> Answer
    requires { IsSome flying.rendered }
    ensures { flying.rendered ≡ Some result }
{
    let Flying {
        number: _,
        connection: _,
        request: _,
        rendered,
    } = flying;
    let Some(answer) = rendered else {
        unreachable!();
    };
    answer
}

// Leaves the flushes that are unfinished after a slice of the oldest.
fn leave_unfinished(flushes: &mut Vec<Flushing>, purged: &Purged)
    ensures { flushes.new.items ≡ left_after purged.now flushes.old.items }
{
    if ends(purged) && !flushes.is_empty() {
        flushes.remove(0);
    }
}

// What the landing of a flight comes to.
fn landing_end(number: FlightId, connection: ConnectionId, answer: Answer, landed: Landed) -> Ended
    ensures { result ≡ landing_end_of number connection answer landed }
{
    let (note, conditions) = match landed {
        Landed::Kept(key) => (Note::Kept(number, key), not_out_of_memory(false)),
        Landed::Passed => (Note::Passed(number), not_out_of_memory(false)),
        Landed::DiskFailed => (Note::Unkept(number), not_out_of_memory(true)),
        Landed::NoMemory => (Note::Unkept(number), out_of_memory(false)),
    };
    Ended {
        note,
        conditions,
        connection,
        awaited: Awaited::Flight(number),
        reply: Some(Reply::Says(PreparedAnswer::of(answer))),
    }
}

// Whether the slice ended its flush.
fn ends(purged: &Purged) -> bool
    ensures { result ≡ is_ending purged.now }
{
    match purged {
        Purged::Idle | Purged::More(_) => false,
        Purged::Done(_) | Purged::Failed(_) | Purged::NoMemory(_) => true,
    }
}

// What a slice of this flush comes to.
fn slice_end(flush: Flushing, purged: Purged) -> Option<Ended>
    ensures { result ≡ slice_end_of flush purged }
{
    let number = flush.number;
    let (note, conditions, reply) = match purged {
        Purged::Idle => return None,
        Purged::More(_) => (Note::Sliced(number), not_out_of_memory(false), None),
        Purged::Done(_) => (
            Note::Done(number),
            not_out_of_memory(false),
            Some(Reply::Own(200)),
        ),
        Purged::Failed(_) => (
            Note::Failed(number, Failure::Disk),
            not_out_of_memory(true),
            Some(Reply::Own(500)),
        ),
        Purged::NoMemory(_) => (
            Note::Failed(number, Failure::NoMemory),
            out_of_memory(false),
            Some(Reply::Own(INSUFFICIENT_STORAGE)),
        ),
    };
    Some(Ended {
        note,
        conditions,
        connection: flush.connection,
        awaited: Awaited::Flush(number),
        reply,
    })
}
