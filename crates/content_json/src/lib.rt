//! Content as JSON: the tree that a JSON text stands for, or the first fault that it has, and the text that a tree is written as.
#![tactic(auto)]

mod fault;
mod from_tokens;
mod kind;
mod laws;
mod names;
mod open_object;
mod order;
mod part;
mod pass;
mod read;
mod search;
mod tokens;
mod write;

pub use fault::ContentFault;
pub use laws::{
    a_fault_is_at_its_place, a_members_value_stands_under_its_name, content_is_a_tree,
    members_lead_to_nodes, no_fault_without_a_cause, other_kids_in_byte_order,
    paths_decide_the_size,
};
pub use read::read_tree;
pub use write::write_tree;
