//! Laws of the rules of a dispatcher: which farm a file has, and which `.stat` files an invalidation touches. Definitions and laws alone.
#![tactic(auto)]

mod laws;

pub use laws::{
    a_number_is_its_digits, other_members_change_nothing, the_farm_is_its_table,
    the_first_fault_is_told, touched_folders_are_above_the_handle,
};
