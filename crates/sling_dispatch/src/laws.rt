//! Laws of the definitions, on functions that do nothing.
ghost use Rattle.std.specs.Prelude.{◌≡◌, ℕ, Bool, List, length};
ghost use Rattle.sp_base.specs.Texts.{Segments, Text};
ghost use Rattle.resource_tree.specs.Content.{Content};
ghost use Rattle.http_front.specs.Targets.{begins_with_slash};
ghost use Rattle.any_config.specs.declared.farm.Farm as models;
ghost use Rattle.url_split.specs.declared.decompose.Parts as split;
ghost use Rattle.url_split.specs.Split.{IsSplit};
ghost use Rattle.dispatch_rules.specs.UrlParts.{stem};
ghost use Rattle.sling_dispatch.specs.SessionLaws.{SessionHitsAreFresh, SessionLogsAreLegal, SessionRepliesInFlightAreNotStored, SessionsServeKeptPages, TranscriptsTellSessions};
ghost use Rattle.sling_dispatch.specs.ServedLaws.{ServedHitsAreFresh, ServedLogsAreLegal, ServedRepliesInFlightAreNotStored, ServedSessionsGoOn, ServedSessionsLeaveLegalLogs, ServedSessionsServeKeptPages, SessionsAreServed, UnhinderedReplaysAreDoneUnlessOutOfMemory, UnhinderedServingIsDoneUnlessOutOfMemory, NumberedRunsAreDoneUnlessTheSinkFailedOrOutOfMemory};
ghost use Rattle.sling_dispatch.specs.SessionsWithMemory.{SessionsWithMemoryAreOne, UncachedTextsAreOne, UncachedScenariosAreOne};
ghost use Rattle.sling_dispatch.specs.FilterParts.{SeesParts};
ghost use Rattle.sling_dispatch.specs.Runs.{AreAnsweredAlikeIfOnePath};

use publisher::statuses_are_short;
use replay_text::{a_transcript_tells_its_events, acts_are_told_by_their_lines, one_reading};
use run_laws::{
    answers_of_hits_are_fresh, kept_pages_are_served, logs_are_legal, notes_name_pages,
    replies_in_flight_are_not_stored, runs_that_ask_no_cache_leave_no_choice,
    runs_with_memory_are_determined, steps_tell_the_ends_of_streams, streams_with_memory_end_alike,
};
use serve_loop::{served_sessions_leave_legal_logs, sessions_begin_in_legal_logs};

/// How the path of a target is escaped doesn't matter, apart from the slash that it begins with, nor which query follows.
pub fn spellings_are_answered_alike()
    ensures { (farm : models.Farm) (content : Content) (a b : Text) → begins_with_slash a ≡ begins_with_slash b → AreAnsweredAlikeIfOnePath farm content a b }
{}

/// Where the words are right and nothing outside is in the way, the run is done, unless it ran out of memory. `replay`: the source's bytes
/// are a scenario whose content and farm have a reading, and neither the source nor the sink failed. `serve`: the inputs have a reading, the
/// number of the session is of its form and not at its end, and the inputs, what comes next and the sink didn't fail, nor the disk before the
/// first turn. `scenario` and `soak`: the sink didn't fail.
pub fn complete()
    ensures replay { UnhinderedReplaysAreDoneUnlessOutOfMemory }
    ensures serve { UnhinderedServingIsDoneUnlessOutOfMemory }
    ensures numbered { NumberedRunsAreDoneUnlessTheSinkFailedOrOutOfMemory }
{
    one_reading();
}

/// A transcript tells what the lines of its session's events can tell: no two sessions of scenarios that are read have the same, but those in
/// which the same is told. (Such a scenario has too few lines for an epoch that doesn't fit 64 bits.)
pub fn a_transcript_tells_its_session()
    ensures { TranscriptsTellSessions }
{
    notes_name_pages();
    statuses_are_short();
    a_transcript_tells_its_events();
}

/// What an entry of the filter asks about are the parts of the path text's decomposition, where the resource path of that ends at the
/// text's first dot.
pub fn a_filter_sees_the_decomposition()
    ensures { (known : Segments → Bool) (text : List ℕ) (parts : split.Parts) (s : IsSplit known text parts) → s.at ≡ length (stem text) → SeesParts text parts }
{}

/// A scenario has one transcript, where in no event the disk fails or memory runs out, no page is served from the cache, no flush begins and
/// the cache doesn't go down; and where the streams end alike. (They do if in the first no stream that is still read ends within a target that isn't UTF-8 and
/// can't become it: the law `streams_with_memory_end_alike` of `run_laws`.)
pub fn a_session_with_memory_has_one_transcript()
    ensures { SessionsWithMemoryAreOne }
{
    acts_are_told_by_their_lines();
    runs_with_memory_are_determined();
}

/// A scenario whose acts plan no failure of the disk, and whose requests have no page in the cache and ask for no invalidation, has one
/// transcript, where in no event memory runs out and the streams end alike (`ends`). They do if by its text no stream is left open: then only
/// memory leaves a choice (`text`). What is asked of its acts and streams is asked of its text: of the turns that the bytes spell, or the first of
/// these bytes, which come on a connection from an opening on. (It has too few lines for an epoch that doesn't fit 64 bits.)
pub fn a_scenario_that_asks_no_cache_has_one_transcript()
    ensures ends { UncachedScenariosAreOne }
    ensures text { UncachedTextsAreOne }
{
    acts_are_told_by_their_lines();
    a_session_with_memory_has_one_transcript();
    runs_that_ask_no_cache_leave_no_choice();
    steps_tell_the_ends_of_streams();
    streams_with_memory_end_alike();
}

/// The log of the cache is legal in each session.
pub fn session_logs_are_legal()
    ensures { SessionLogsAreLegal }
{
    logs_are_legal();
}

/// After a flush that was answered 200 no hit is older.
pub fn session_hits_are_fresh()
    ensures { SessionHitsAreFresh }
{
    answers_of_hits_are_fresh();
}

/// A reply in flight as a flush begins that covers its page is never stored.
pub fn session_replies_in_flight_are_not_stored()
    ensures { SessionRepliesInFlightAreNotStored }
{
    replies_in_flight_are_not_stored();
}

/// A kept page that no flush covered since is served without a render, where neither the disk fails nor memory runs out.
pub fn sessions_serve_kept_pages()
    ensures { SessionsServeKeptPages }
{
    kept_pages_are_served();
}

/// A session that is served goes on from each legal log that it may go on from (`there`); it leaves one, unless memory ran out (`left`); and with
/// `warm` the next session goes on from that (`again`), and so on for ever.
pub fn served_sessions_go_on()
    ensures there { SessionsAreServed }
    ensures left { ServedSessionsLeaveLegalLogs }
    ensures again { ServedSessionsGoOn }
{
    served_sessions_leave_legal_logs();
    sessions_begin_in_legal_logs();
}

/// The log of the cache is legal after each session that is served, and no flush had more slices than names may stand in its way.
pub fn served_logs_are_legal()
    ensures { ServedLogsAreLegal }
{
    logs_are_legal();
    sessions_begin_in_legal_logs();
}

/// After a flush that was answered 200 no hit that is served is older, in that session and in each later one.
pub fn served_hits_are_fresh()
    ensures { ServedHitsAreFresh }
{
    answers_of_hits_are_fresh();
    sessions_begin_in_legal_logs();
}

/// A reply in flight as a flush begins that covers its page is never stored.
pub fn served_replies_in_flight_are_not_stored()
    ensures { ServedRepliesInFlightAreNotStored }
{
    replies_in_flight_are_not_stored();
    sessions_begin_in_legal_logs();
}

/// A kept page that no flush covered since is served without a render, where neither the disk fails nor memory runs out, also where it was kept in
/// an earlier session.
pub fn served_sessions_serve_kept_pages()
    ensures { ServedSessionsServeKeptPages }
{
    kept_pages_are_served();
}
