//! The operation that a POST asks for, by its parameters (Apache Sling, "SlingPostServlet").
#![tactic(auto)]

mod entries;
mod fault;
mod faults;
mod goals;
mod groups;
mod hints;
mod laws;
mod naming;
mod node;
mod numbered_spots;
mod operation;
mod orders;
mod parameters;
mod planning;
mod relative;
mod sets;
mod spot;
mod spots;
mod suffix;
mod verb;
mod wishes;
mod word_list;
mod words;

pub use fault::PlanFault;
pub use laws::{made_names_are_their_words_runs, operations_name_paths};
pub use operation::{CarryOp, ModifyOp, NameWish, Op, PropSet, SetList};
pub use planning::plan;
pub use spot::{Carry, CarryList, Spot, SpotList};
pub use wishes::TargetEnding;
pub use word_list::LentWords;
