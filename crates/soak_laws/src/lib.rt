//! What scenarios that are made from numbers are.
#![tactic(auto)]

mod laws;

pub use laws::the_text_of_a_number_is_a_scenario;
