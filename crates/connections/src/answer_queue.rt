//! The answers that a connection still owes, in the order of its requests.
ghost use Rattle.std.specs.Prelude.{◌≡◌, ◌+◌, ◌⊎◌, ◌||◌, ℕ, List, false, IfNone, IfOk, IfSome, OnErr, OnOk, OnSome, position};
ghost use Rattle.std.specs.List.{count_by};
ghost use Rattle.connections.specs.Slots.{Slot, are_fixed_507};
ghost use Rattle.connections.specs.Connections as model;
ghost use Rattle.connections.specs.Connections.{Connection, due, due_without_sending, fresh, with_slot};
ghost use Rattle.connections.specs.Histories.{SendsDue, SendsInPlaceOfDue};
ghost use Rattle.connections.specs.AnswerQueues.{IsSendingOf, PlaceStandsFor, QueueStandsFor, awaits, is_final_reply, first_has_reply, unsent_count, FillsSlot};

use crate::awaited::Awaited;
use crate::place::{AnswerPlace, Reply};
use crate::sending::Sending;
use http_front::{SentBytes, fixed_507};
use sp_base::{ByteBuf, Mem};
use std::alloc::Global;
use std::collections::VecDeque;
use std::mem::replace;

const MOST_UNSENT: usize = 64;

/// The answers that a connection still owes.
#[derive(Drop)]
pub struct AnswerQueue {
    // The places that aren't sent yet.
    places: VecDeque<AnswerPlace>,
    // No further turn gets a place.
    closing: bool,
    // No further place is sent.
    over: bool,
    // The fixed 507, kept so that it can be sent when no memory is there.
    spare: ByteBuf,
}

impl AnswerQueue {
    /// The queue of a new connection. It takes the room of the fixed 507.
    pub fn new(alloc: Global) -> Mem<AnswerQueue>
        ensures { IfOk result (λ queue. (peer : List ℕ) → QueueStandsFor queue (fresh peer)) }
    {
        Ok(AnswerQueue {
            places: VecDeque::new(alloc),
            closing: false,
            over: false,
            spare: ByteBuf::of(alloc, fixed_507())?,
        })
    }

    /// Gives the next turn its place. After a refusal nothing has changed.
    pub fn push(&mut self, place: AnswerPlace) -> Mem<()>
        ensures ok { OnOk result ((c : Connection) (slot : Slot) → QueueStandsFor self.old c → PlaceStandsFor place slot → QueueStandsFor self.new (with_slot slot c)) }
        ensures more { OnOk result (unsent_count self.new ≡ unsent_count self.old + 1) }
        ensures err { OnErr result ((c : Connection) → QueueStandsFor self.old c → QueueStandsFor self.new c) }
    {
        let closes = place.closes;
        self.places.push_back(place)?;
        self.closing = self.closing || closes;
        Ok(())
    }

    /// What is sent next, if anything can be: the next place's answer; or in place of another the fixed 507, exactly where memory
    /// runs out. None where the connection is over or the next place waits.
    pub fn send(&mut self, alloc: Global) -> Option<Sending>
        ensures sends { IfSome result (SendsDue (QueueStandsFor self.old) (QueueStandsFor self.new)) }
        ensures out_of_memory { IfSome result (SendsInPlaceOfDue (QueueStandsFor self.old)) }
        ensures fewer { OnSome result (unsent_count self.new + 1 ≡ unsent_count self.old) }
        ensures waits { IfNone result ((c : Connection) → QueueStandsFor self.old c → due c ≡ due_without_sending c) }
        ensures same { IfNone result (self.new ≡ self.old) }
    {
        if self.over || !self.is_ready() {
            return None;
        }
        let place = self.places.pop_front()?;
        let closes = place.closes;
        let sending = self.make_sending(alloc, place);
        self.over = is_last(closes, &sending.bytes);
        Some(sending)
    }

    // Whether the next place has its answer.
    fn is_ready(&self) -> bool
        ensures { result ≡ first_has_reply self.now.places.items }
    {
        match self.places.front() {
            Some(place) => place.reply.has_reply(),
            None => false,
        }
    }

    // A place's answer, or the spare bytes, where these are its own or memory runs out.
    fn make_sending(&mut self, alloc: Global, place: AnswerPlace) -> Sending
        ensures sends { IsSendingOf place self.old.spare result }
        ensures kept { (self.new.places ≡ self.old.places) × (self.new.closing ≡ self.old.closing) × (self.new.over ≡ self.old.over) }
        ensures spare { (self.new.spare ≡ self.old.spare) ⊎ (result.bytes ≡ self.old.spare) }
    {
        if place.owns_fixed_507() {
            return Sending {
                bytes: self.take_spare(alloc),
                out_of_memory: false,
            };
        }
        match place.written(alloc) {
            Ok(bytes) => Sending {
                bytes,
                out_of_memory: false,
            },
            Err(_) => Sending {
                bytes: self.take_spare(alloc),
                out_of_memory: true,
            },
        }
    }

    // The spare bytes, which are gone then: after the fixed 507 nothing is sent.
    fn take_spare(&mut self, alloc: Global) -> SentBytes
        ensures spare { result ≡ self.old.spare }
        ensures kept { (self.new.places ≡ self.old.places) × (self.new.closing ≡ self.old.closing) × (self.new.over ≡ self.old.over) }
    {
        let spare = replace(&mut self.spare, ByteBuf::from(Vec::new(alloc)));
        SentBytes::whole(alloc, spare)
    }

    /// Gives the first place that awaits this flight, or the end of this flush, its reply. Where none does, nothing changes.
    pub fn fill(&mut self, awaited: Awaited, reply: Reply)
        ensures filled { FillsSlot awaited reply (QueueStandsFor self.old) (QueueStandsFor self.new) }
        ensures same { unsent_count self.new ≡ unsent_count self.old }
    {
        if let Some(at) = awaiting_place(&self.places, awaited) {
            self.places[at].reply = reply;
        }
    }

    /// Whether the answers to `MOST_UNSENT` or more requests are unsent, so that the next is refused.
    pub fn is_crowded(&self) -> bool
        ensures { (c : Connection) → QueueStandsFor self.now c → result ≡ model.is_crowded c }
    {
        self.unsent_requests() >= MOST_UNSENT
    }

    fn unsent_requests(&self) -> usize
        ensures { result ≡ count_by (λ place. is_final_reply place.reply) self.now.places.items }
    {
        self.places
            .iter()
            .filter(|place| place.reply.is_final())
            .count()
    }

    /// Whether no further turn gets a place.
    pub fn is_closing(&self) -> bool
        ensures { (c : Connection) → QueueStandsFor self.now c → result ≡ c.closing }
    {
        self.closing
    }

    /// Whether all is sent, so that the connection is to be shut.
    pub fn is_over(&self) -> bool
        ensures { (c : Connection) → QueueStandsFor self.now c → result ≡ c.over }
    {
        self.over
    }
}

// Whether a connection closes after these bytes, where it closes after their place (`closes`) or else goes on.
fn is_last(closes: bool, bytes: &SentBytes) -> bool
    ensures { result ≡ (closes || are_fixed_507 bytes.now) }
{
    closes || bytes.is(fixed_507())
}

fn awaiting_place(places: &VecDeque<AnswerPlace>, awaited: Awaited) -> Option<usize>
    ensures { result ≡ position (λ place. awaits awaited place.reply) places.now.items }
{
    places.iter().position(|place| place.reply.awaits(awaited))
}
