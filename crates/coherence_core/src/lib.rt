//! The core of a cache: its requests, landings, flushes in slices and restarts, over a disk that may fail (Adobe Dispatcher manual,
//! "Invalidating Cached Pages From AEM"; RFC 9111).
#![tactic(auto)]

mod answers;
mod asking;
mod beginning;
mod core_state;
mod delivery;
mod flushing;
mod laws;
mod look;
mod lookup;
mod noting;
mod page_parts;
mod pending;
mod request;
mod restart;

pub use answers::{Got, Landed, Purged, Requested};
pub use core_state::Core;
pub use laws::{
    a_log_is_closed_in_one_way, a_session_begins_in_a_legal_log, a_session_begins_without_pages,
    a_session_may_end_at_any_time, coverage_by_three_facts, each_draw_is_after_those_before_it,
    each_stamp_is_before_the_next, no_files_hold_the_empty_log, puts_and_openings_keep_stat_files,
    stamps_are_of_flights_and_flushes, the_files_hold_what_stands,
};
pub use pending::Pending;
