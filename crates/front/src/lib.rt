//! The front: connections before a cache before a publisher, and the flights and flushes of these between them. One step is one event
//! of a run.
#![tactic(auto)]

mod answered;
mod asking;
mod board;
mod cache;
mod clearing;
mod connection;
mod effect;
mod endings;
mod front;
mod laws;
mod renderer;
mod renders;
mod restarts;
mod serve;
mod ticketed;
mod treat;

pub use front::Front;
pub use laws::{
    a_front_begins_over_a_log_that_ends_anywhere, a_front_stands_whatever_the_count,
    the_files_of_a_front_hold_its_log,
};
pub use renderer::Renderer;
pub use run_events::{Conditions, Failure, Flushing, Flying, Note, NoteList, Pick, Step};
