//! What follows of serving, on functions that do nothing but to call others.
ghost use Rattle.std.specs.Prelude.{◌≡◌, ◌∷◌, [], ℕ};
ghost use Rattle.cache_log.specs.Entries.{Session};
ghost use Rattle.run_events.specs.States.{Start};
ghost use Rattle.run_laws.specs.Logs.{IsBeginning};
ghost use Rattle.serve_loop.specs.Served.{HappeningsHaveTurns};
ghost use Rattle.serve_loop.specs.Totals.{FailuresAreCounted};
ghost use Rattle.serve_loop.specs.TurnParts.{ConnectionsGoForACause, TurnsHaveOneSlice, TurnsLandAll};
ghost use Rattle.serve_loop.specs.Beginnings.{SessionsBeginOverFiles, SessionsLeaveLegalLogs};

use coherence_core::a_session_begins_in_a_legal_log;
use run_laws::{
    events_keep_the_farm, events_leave_nothing_due, logs_are_legal,
    rounds_take_flights_out_of_the_air,
};

/// The world's log tells the turns: each happening that came to it has one, in their order, and there is no other.
pub fn each_happening_has_a_turn()
    ensures { HappeningsHaveTurns }
{}

/// A session begins as the laws of runs want it: over files that hold a closed log, which is legal, with the number after the one that they
/// hold (`over`), and from the empty log with any number (`first`).
pub fn sessions_begin_in_legal_logs()
    ensures over { SessionsBeginOverFiles }
    ensures first { (s : Start) (epoch : ℕ) → s.log ≡ Session epoch ∷ [] → IsBeginning s }
{
    a_session_begins_in_a_legal_log();
}

/// A session that was served from a legal log leaves one, unless memory ran out: the files hold it at the end, closed, so a session may go on
/// with it.
pub fn served_sessions_leave_legal_logs()
    ensures { SessionsLeaveLegalLogs }
{
    logs_are_legal();
    events_keep_the_farm();
}

/// A whole turn ends with nothing in the air, where it began so.
pub fn turns_land_all()
    ensures { TurnsLandAll }
{
    events_leave_nothing_due();
    rounds_take_flights_out_of_the_air();
}

/// A whole turn has one slice of the oldest flush, after its flights have landed, exactly where one is unfinished then.
pub fn turns_end_with_one_slice()
    ensures { TurnsHaveOneSlice }
{
    events_leave_nothing_due();
    rounds_take_flights_out_of_the_air();
}

/// A connection goes in a turn only where that came, or where a sending on it failed just before.
pub fn connections_go_for_a_cause()
    ensures { ConnectionsGoForACause }
{}

/// A session says `hurt` in at most as many events as its disk's count of faults rose by, and they spoil at most as many requests and flushes
/// in all, unless that count ends at the end of its type.
pub fn failures_are_counted()
    ensures { FailuresAreCounted }
{}
