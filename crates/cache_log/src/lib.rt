//! The log of a cache: what may be added to it, and by it what the cache may answer from its store and what it owes (RFC 9111, sections 3
//! and 4; Adobe Dispatcher manual, "Invalidating Cached Pages From AEM"). Definitions and laws alone.
#![tactic(auto)]

mod laws;

pub use laws::{
    a_cache_is_up_or_idle, a_legal_log_grows_by_what_is_allowed, a_log_of_two_sessions_is_legal,
    a_permitted_hit_was_asked_for_after_each_flush, clear_flights_are_clear, epochs_rise,
    flights_and_flushes_are_at_places, flights_and_flushes_have_their_numbers,
    hits_and_landings_of_a_legal_log, no_flush_covers_a_clear_flight, owed_hits_are_of_landings,
    permitted_hits_are_of_landings, what_is_kept_is_owed, what_is_owed_is_permitted,
};
