//! Laws of whole runs: connections before a cache before a publisher. Definitions and laws alone.
#![tactic(auto)]

mod laws;
mod serving;

pub use laws::{
    a_cutting_changes_no_byte, a_cutting_changes_no_turn, answers_are_of_their_own_requests,
    answers_of_hits_are_fresh, connections_and_flights_are_counted,
    connections_are_answered_in_order, events_add_what_is_allowed, events_extend,
    kept_pages_are_served, logs_are_legal, notes_name_pages, renders_are_published,
    replies_in_flight_are_not_stored, runs_that_ask_no_cache_leave_no_choice,
    runs_with_memory_are_determined, steps_tell_the_ends_of_streams, streams_with_memory_end_alike,
};
pub use serving::{
    connections_that_go_are_gone, events_keep_the_farm, events_leave_nothing_due,
    notes_are_of_connections_that_are_there, rounds_take_flights_out_of_the_air,
    turns_are_treated_as_they_come,
};
