//! What may happen in a run: connections before a cache before a publisher, event by event. Types and definitions alone.
#![tactic(auto)]

mod conditions;
mod flying;
mod note;
mod step;

pub use conditions::Conditions;
pub use flying::{Flushing, Flying};
pub use note::{Failure, Note, NoteList};
pub use step::{Pick, Step};
