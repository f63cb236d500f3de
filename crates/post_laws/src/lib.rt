//! Laws of what a POST makes of the content: what it leaves as it is, and what it leaves at the places that it names. Definitions and laws alone.
#![tactic(auto)]

mod laws;

pub use laws::{
    a_copy_and_a_move_bring_the_source, operations_leave_what_is_apart,
    the_last_value_of_a_property_stays, what_is_taken_away_is_gone,
};
