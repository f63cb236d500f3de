//! Laws of whole runs: functions that do nothing.
ghost use Rattle.std.specs.Prelude.{◌≡◌, ◌++◌, ◌∷◌, [], List, false, map};
ghost use Rattle.cache_log.specs.Rules.{IsLegal, KeepsBound};
ghost use Rattle.run_events.specs.Events.{Event, Happens, Run, after_event, notes_of, state_after_events};
ghost use Rattle.run_events.specs.States.{AreConnectionsCounted, AreFlightsRising, RunState, Start, start_of};
ghost use Rattle.connections.specs.Histories.{AnswersRun, AreOfTurns};
ghost use Rattle.connections.specs.Ids.{ConnectionId};
ghost use Rattle.http_front.specs.Turns.{SpellsTurns};
ghost use Rattle.run_laws.specs.Cuttings.{CuttingsAgree, SameStreamsHaveSameTurnsIfNeitherCloses};
ghost use Rattle.run_laws.specs.Determined.{RunsWithMemoryAreOne, StreamsWithMemoryEndAlike};
ghost use Rattle.run_laws.specs.Histories.{HasReadAll, came_since_opened, sent_since_opened, OfOpenConnections, AnswersItsStream};
ghost use Rattle.run_laws.specs.Named.{EventsNamePages};
ghost use Rattle.run_laws.specs.Owned.{AnswersAreOwn, HitsAreEntries};
ghost use Rattle.run_laws.specs.Renders.{IsNeverFixed, HasPublishedRenders};
ghost use Rattle.run_laws.specs.Brought.{StepsTellTheEnds, UncachedRunsLeaveNoChoice};
ghost use Rattle.run_laws.specs.Logs.{EventsAddWhatIsAllowed, HitsAreFresh, IsBeginning, KeptPagesAreOwed, KeptPagesAreServed, OwedHitsGiveWhatWasKept, RepliesInFlightAreNotStored, log_after};

use cache_log::{
    a_permitted_hit_was_asked_for_after_each_flush, owed_hits_are_of_landings,
    permitted_hits_are_of_landings, what_is_owed_is_permitted,
};
use connections::{answers_in_order, each_turn_is_treated, slots_of_turns};
use cover_rules::a_page_has_one_key;
use http_front::{the_end_of_a_stream, the_turns_of_a_beginning};
use sp_base::a_path_and_its_text;

/// A run goes on with what happens next, in the state that it left.
pub fn events_extend()
    ensures run { (w : RunState) (events : List Event) (e : Event) → Run w events → Happens (state_after_events w events) e → Run w (events ++ e ∷ []) }
    ensures state { (w : RunState) (events : List Event) (e : Event) → state_after_events w (events ++ e ∷ []) ≡ after_event (state_after_events w events) e }
{}

/// Whatever happens: the log of the cache is legal, and no flush of the session had more slices that left it unfinished than names that may
/// stand in its way.
pub fn logs_are_legal()
    ensures legal { (s : Start) (events : List Event) → IsBeginning s → Run (start_of s) events → IsLegal s.farm (log_after s events) }
    ensures bound { (s : Start) (events : List Event) → IsBeginning s → Run (start_of s) events → KeepsBound s.farm s.found (log_after s events) }
{}

/// What an event adds to the log of the cache is allowed, entry by entry, under what that very event ran under. So where neither the disk failed
/// nor memory ran out in it, no landing of it is maybe kept, no flush fails in it unless it is a restart, and no owed page is asked for.
pub fn events_add_what_is_allowed()
    ensures { EventsAddWhatIsAllowed }
{}

/// After a flush ended done, no hit on a page that it covers has an answer whose flight was asked before the flush ended: in that session and
/// after restarts, whatever failed.
pub fn answers_of_hits_are_fresh()
    ensures { HitsAreFresh }
{
    permitted_hits_are_of_landings();
    a_permitted_hit_was_asked_for_after_each_flush();
}

/// A reply in flight when a flush begins that covers its page is never stored.
pub fn replies_in_flight_are_not_stored()
    ensures { RepliesInFlightAreNotStored }
{}

/// A page that was kept, and that no flush covered since its flight was asked (`owed`), is served without a render, in every event in which
/// neither the disk failed nor memory ran out (`served`), and the hit gives the answer that was kept (`one`).
pub fn kept_pages_are_served()
    ensures served { KeptPagesAreServed }
    ensures owed { KeptPagesAreOwed }
    ensures one { OwedHitsGiveWhatWasKept }
{
    owed_hits_are_of_landings();
    what_is_owed_is_permitted();
}

/// A run in which neither the disk fails nor memory runs out, no hit is given, no flush begins and the cache doesn't go down is determined by
/// its steps, the publisher, the farm, the content, the log and how the streams end.
pub fn runs_with_memory_are_determined()
    ensures { RunsWithMemoryAreOne }
{
    the_turns_of_a_beginning();
}

/// A run leaves no choice in which neither the disk fails nor memory runs out, and whose requests have no page in the cache and ask for no
/// invalidation: no hit is given, no flush begins, and the cache doesn't go down. Its steps tell which requests may come: those that the bytes
/// spell, or the first of these bytes, which come on a connection from a step on that opens it.
pub fn runs_that_ask_no_cache_leave_no_choice()
    ensures { UncachedRunsLeaveNoChoice }
{}

/// If no stream ends within a target that isn't UTF-8 and can't become it, of those that the steps of a run may bring, then no stream of the run does
/// after any event.
pub fn steps_tell_the_ends_of_streams()
    ensures { StepsTellTheEnds }
{}

/// In two such runs of the same steps, before the same publisher and farm and on the same content and log, the streams end alike, if in the
/// first no stream that is still read ends, after any event, within a target that isn't UTF-8 and can't become it, with its bytes or with the
/// first 16,384 of the next head's. (There a bad head may be told at once or later, and at 16,384 bytes a bad head or a long one. After one
/// such end, on any connection, nothing is said of the others.)
pub fn streams_with_memory_end_alike()
    ensures { StreamsWithMemoryEndAlike }
{
    the_turns_of_a_beginning();
    the_end_of_a_stream();
}

/// Whatever happens: what was sent on an open connection since it was opened answers its slots in their order, each once, up to the
/// first that waits for a flight, and nothing after one that closes it; its slots are those of the turns of its stream, in their
/// order, and after them that of the stream's fault, with its status; the stream of an open connection, as far as it was read, spells the
/// turns that are kept of it, and ends so (`spells`); and unless it is closing, its stream is all that came, and each turn of it has its
/// slot (RFC 9112, section 9.3). On a connection that is shut or gone, too, what was sent answers what came while it was there, or, only
/// where a slot closes it, a prefix of that; and each turn has its slot, unless one closes the connection or memory ran out as something
/// was sent.
pub fn connections_are_answered_in_order()
    ensures answers { OfOpenConnections (λ events c connection. AnswersRun connection.slots (sent_since_opened c events)) }
    ensures slots { OfOpenConnections (λ events c connection. AreOfTurns connection.turns connection.ends connection.slots) }
    ensures spells { OfOpenConnections (λ events c connection. SpellsTurns connection.stream connection.turns connection.ends) }
    ensures reads { OfOpenConnections (λ events c connection. connection.closing ≡ false → HasReadAll (came_since_opened c events) connection) }
    ensures streams { (s : Start) (events : List Event) (c : ConnectionId) → Run (start_of s) events → AnswersItsStream c events }
{
    answers_in_order();
    slots_of_turns();
    each_turn_is_treated();
}

/// How a stream was cut into pieces changes no request: where the same bytes came on two open connections that aren't closing, in
/// one run or in two, the same turns are treated on both.
pub fn a_cutting_changes_no_turn()
    ensures { SameStreamsHaveSameTurnsIfNeitherCloses }
{
    connections_are_answered_in_order();
    the_turns_of_a_beginning();
}

/// How a stream was cut into pieces changes no byte that is sent. Of two connections, in one run or in two, open, shut or gone, on which
/// the same bytes came, or on the second more: the turns that were read of the one begin those of the other, or the other way round; and
/// where the same requests had the same answers, and memory didn't run out, so do the bytes that were sent. (The second may have sent
/// fewer: its answers may be waited for, or it closed before.)
pub fn a_cutting_changes_no_byte()
    ensures { CuttingsAgree }
{
    connections_are_answered_in_order();
    the_turns_of_a_beginning();
}

/// Whatever happens: each flight that was rendered has the publisher's answer, on the content that the renders before it left, or where
/// memory ran out the fixed one, which leaves the content; and the content of the moment is what they all left.
pub fn renders_are_published()
    ensures { (s : Start) (events : List Event) → IsNeverFixed s.publishing → Run (start_of s) events → HasPublishedRenders s events }
{}

/// Whatever happens: the flights in the air rise by number, and none has a higher number than were asked (`flights`); and as many
/// connections are counted as are there (`connections`).
pub fn connections_and_flights_are_counted()
    ensures flights { (s : Start) (events : List Event) → Run (start_of s) events → AreFlightsRising (state_after_events (start_of s) events) }
    ensures connections { (s : Start) (events : List Event) → Run (start_of s) events → AreConnectionsCounted (state_after_events (start_of s) events) }
{}

/// Whatever happens: what was sent on a connection since it was opened answers what came on it, and each request by its own answer:
/// that which was rendered for the flight that was asked for this very request, or exactly where it was lost a 502; or one that the cache
/// could give by its log when the request came; or how the flush ended that the request asked for; or where none of these was its answer the
/// front's own with the status that was noted for it. So it is on a connection that is shut or gone, too. (What is rendered for a flight, and
/// on which content, is the law `renders_are_published`. Each hit is an entry of the log, with the log before it (`hits`): what it may give after
/// a flush is the law `answers_of_hits_are_fresh`.)
pub fn answers_are_of_their_own_requests()
    ensures own { AnswersAreOwn }
    ensures hits { HitsAreEntries }
{
    answers_in_order();
    slots_of_turns();
    each_turn_is_treated();
}

/// Whatever happens: each key in the notes of a run is that of the page at some path, and each handle is a path, with its namespace prefixes
/// as they stand in the repository.
pub fn notes_name_pages()
    ensures { (s : Start) (events : List Event) → Run (start_of s) events → EventsNamePages (map notes_of events) }
{
    a_path_and_its_text();
    a_page_has_one_key();
}
