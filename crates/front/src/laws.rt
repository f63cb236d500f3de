//! What follows for a front, on functions that do nothing.
ghost use Rattle.std.specs.Prelude.{◌≡◌, ◌++◌, []};
ghost use Rattle.cache_log.specs.Rules.{KeepsBound};
ghost use Rattle.coherence_core.specs.Holds.{Holds, HoldsClosed};
ghost use Rattle.front.specs.Endings.{closed_log, cut_off_entries, BeginsOverOpenLogs, OfFrontFilesAndStates, RestartsCloseLogs, StandsWhateverTheCount};

use coherence_core::{
    a_log_is_closed_in_one_way, a_session_may_end_at_any_time, the_files_hold_what_stands,
};

/// A front stands for the same states however often its disk is said to have failed: the count is told by the calls.
pub fn a_front_stands_whatever_the_count()
    ensures { StandsWhateverTheCount }
{}

/// A front that begins a session over files begins it over each log that they hold, also over one that isn't closed: it stands for the state in
/// which a run begins with what closes that log, and a new session.
pub fn a_front_begins_over_a_log_that_ends_anywhere()
    ensures { BeginsOverOpenLogs }
{
    a_log_is_closed_in_one_way();
}

/// At every moment the files of a front hold the log of each state that it stands for (`held`). Wherever a session ends they hold that log, closed
/// (`holds`): each flight in the air is lost, and then each unfinished flush is cut off, which a restart may do (`allowed`). Where no flight is in the air the flushes alone are (`landed`). So the
/// next session can go on with that log. And the slices of each flush keep the bound of the log (`bound`).
pub fn the_files_of_a_front_hold_its_log()
    ensures held { OfFrontFilesAndStates (λ files w. Holds w.farm files w.log) }
    ensures holds { OfFrontFilesAndStates (λ files w. HoldsClosed w.farm files (closed_log w)) }
    ensures allowed { RestartsCloseLogs }
    ensures bound { OfFrontFilesAndStates (λ files w. KeepsBound w.farm w.found w.log) }
    ensures landed { OfFrontFilesAndStates (λ files w. w.flights ≡ [] → HoldsClosed w.farm files (cut_off_entries w ++ w.log)) }
{
    a_session_may_end_at_any_time();
    the_files_hold_what_stands();
}
