//! What follows from the definitions of the log: laws, on functions that do nothing.
ghost use Rattle.std.specs.Prelude.{◌≡◌, ◌<◌, ◌≤◌, ◌↔◌, ℕ, false, List, IsTrue, Option};
ghost use Rattle.sp_base.specs.declared.answer.Answer.{Answer};
ghost use Rattle.any_config.specs.declared.farm.Farm.{Farm};
ghost use Rattle.cover_rules.specs.declared.page.PageKey.{PageKey};
ghost use Rattle.cover_rules.specs.declared.invalidation.Invalidation.{Invalidation};
ghost use Rattle.dispatch_rules.specs.Caching.{is_storable};
ghost use Rattle.cache_ids.specs.Ids.{FlightId, FlushId};
ghost use Rattle.cache_log.specs.Entries.{LogEntry, downs_since, is_up, last_epoch};
ghost use Rattle.cache_log.specs.Hits.{HasDone, InAir, IsClear, MayHit, MustHit, NoneDoneSince, Unfinished};
ghost use Rattle.cache_log.specs.Flown.{HasEpoch, IsClearFlight, IsDoneFlush, IsFlying, IsOwedHit, IsUnfinishedFlush};
ghost use Rattle.cache_log.specs.Rules.{CallConditions, IsAboveAll, IsIdle, IsLegal};
ghost use Rattle.cache_log.specs.Laws.{StaysLegal, WasAllowedIfLegal, two_sessions, WasPermittedIfLegal, KeptLandingsWereClear, FlushesHaveOneInvalidation, FlightsHaveTheirNumbers, FlushesHaveTheirNumbers, ClearFlightsAreUncovered, PermitsOfLandings, PermittedHitsWereAskedSince, OwedHitsAreUncovered, KeptLandingsAreOwed};

/// A flush is unfinished exactly where it began at a place of the log and has not ended since, and one ended done exactly where it did so at
/// a place of the log and was unfinished before. A flight is in the air exactly where it was asked at a place of the log, the last one with
/// its number, and has neither landed nor been lost since.
pub fn flights_and_flushes_are_at_places()
    ensures unfinished { (log : List LogEntry) (flush : FlushId) (inv : Invalidation) → Unfinished log flush inv ↔ IsUnfinishedFlush log flush inv }
    ensures done { (log : List LogEntry) (inv : Invalidation) → HasDone log inv ↔ IsDoneFlush log inv }
    ensures flying { (log : List LogEntry) (flight : FlightId) (key : Option PageKey) → InAir log flight key ↔ IsFlying log flight key }
{}

/// A legal log stays legal with the entries of a call that are allowed; and each entry of a legal log was allowed by the log before it, which
/// is legal too.
pub fn a_legal_log_grows_by_what_is_allowed()
    ensures call { (farm : Farm) (under : CallConditions) (entries log : List LogEntry) → StaysLegal farm under entries log }
    ensures place { (farm : Farm) (since : List LogEntry) (entry : LogEntry) (before : List LogEntry) → WasAllowedIfLegal farm since entry before }
{}

/// Such a log is legal, whatever page it is about, whatever its answer that may be stored, and whatever is flushed: a session begins; a flight
/// is asked for the page, and its answer is kept; the page is a hit; a second flight is asked; a flush begins, and a slice leaves more to do;
/// a restart loses the flight, fails the flush and comes up; and a second session begins.
pub fn a_log_of_two_sessions_is_legal()
    ensures { (farm : Farm) (key : PageKey) (answer : Answer) (inv : Invalidation) → IsTrue (is_storable answer) → IsLegal farm (two_sessions key answer inv) }
{}

/// At no place of a legal log is there a hit that isn't permitted there, nor a landing that is kept although its flight isn't clear there or
/// its answer isn't storable.
pub fn hits_and_landings_of_a_legal_log()
    ensures hit { (farm : Farm) (since : List LogEntry) (key : PageKey) (before : List LogEntry) → WasPermittedIfLegal farm since key before }
    ensures kept { KeptLandingsWereClear }
{}

/// While a cache is up, no restart has gone down since the last epoch; and of a legal log, while it isn't up, no flight is in the air and no
/// flush is unfinished.
pub fn a_cache_is_up_or_idle()
    ensures up { (log : List LogEntry) → IsTrue (is_up log) → downs_since log ≡ 0 }
    ensures idle { (farm : Farm) (log : List LogEntry) → IsLegal farm log → is_up log ≡ false → IsIdle log }
{}

/// An epoch is above all exactly where it is above each with which a restart of the log came up or a session of it began, and then so is each
/// that isn't below it; of a legal log none of these is above the last.
pub fn epochs_rise()
    ensures above { (epoch : ℕ) (log : List LogEntry) → IsAboveAll epoch log ↔ ((other : ℕ) → HasEpoch log other → other < epoch) }
    ensures more { (epoch more : ℕ) (log : List LogEntry) → epoch ≤ more → IsAboveAll epoch log → IsAboveAll more log }
    ensures last { (farm : Farm) (log : List LogEntry) (other : ℕ) → IsLegal farm log → HasEpoch log other → other ≤ last_epoch log }
{}

/// Of a legal log, a flight in the air is for one page or for none, and an unfinished flush has one invalidation. Their numbers are from 1 to
/// as many as were asked or have begun in the session.
pub fn flights_and_flushes_have_their_numbers()
    ensures key { (log : List LogEntry) (flight : FlightId) (key other : Option PageKey) → InAir log flight key → InAir log flight other → key ≡ other }
    ensures inv { FlushesHaveOneInvalidation }
    ensures flight { FlightsHaveTheirNumbers }
    ensures flush { FlushesHaveTheirNumbers }
{}

/// A flight is clear exactly where it was asked for the page at a place of the log, no flush that covers the page was unfinished there, and
/// none has begun since.
pub fn clear_flights_are_clear()
    ensures { (farm : Farm) (log : List LogEntry) (flight : FlightId) (key : PageKey) → IsClear farm log flight key ↔ IsClearFlight farm log flight key }
{}

/// No unfinished flush covers the page of a clear flight, and no flush that covers it has ended done since the flight was asked.
pub fn no_flush_covers_a_clear_flight()
    ensures unfinished { ClearFlightsAreUncovered }
    ensures done { (farm : Farm) (log : List LogEntry) (flight : FlightId) (key : PageKey) → IsClear farm log flight key → NoneDoneSince farm log flight key }
{}

/// Of a legal log, a hit may be answered so exactly where a landing of the page was kept or unkept with the answer, no later one was kept,
/// and each flush that covers the page and ended done did so before that landing's flight was asked.
pub fn permitted_hits_are_of_landings()
    ensures { (farm : Farm) (log : List LogEntry) (key : PageKey) (answer : Answer) → IsLegal farm log → PermitsOfLandings farm log key answer }
{}

/// What permits a hit was asked for after each flush that covers the page and ended done: wherever one did so in the log, the flight of the
/// landing was asked since.
pub fn a_permitted_hit_was_asked_for_after_each_flush()
    ensures { PermittedHitsWereAskedSince }
{}

/// A hit with the answer is owed exactly where a landing of the page was kept with it, each later one was passed, no flush that covers the
/// page was unfinished where that landing's flight was asked, and none has begun since.
pub fn owed_hits_are_of_landings()
    ensures { (farm : Farm) (log : List LogEntry) (key : PageKey) (answer : Answer) → MustHit farm log key answer ↔ IsOwedHit farm log key answer }
{}

/// What is owed is permitted, and is then the one permitted answer; and no unfinished flush covers its page.
pub fn what_is_owed_is_permitted()
    ensures permitted { (farm : Farm) (log : List LogEntry) (key : PageKey) (answer : Answer) → MustHit farm log key answer → MayHit farm log key answer }
    ensures one { (farm : Farm) (log : List LogEntry) (key : PageKey) (owed got : Answer) → MustHit farm log key owed → MayHit farm log key got → got ≡ owed }
    ensures uncovered { OwedHitsAreUncovered }
{}

/// A landing that is kept is owed at once, as it is stored.
pub fn what_is_kept_is_owed()
    ensures { KeptLandingsAreOwed }
{}
