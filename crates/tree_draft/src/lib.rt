//! Changes of a content that a tree doesn't know yet: a tree and what is to stand over it.
//!
//! Once all are made, what a draft holds over its tree is a patch of the tree. One change of a tree at once
//! is made in the same way.
#![tactic(auto)]

pub mod at_once;
mod copy;
mod create;
mod draft;
mod edit;
mod falls;
mod held;
mod kid_list;
mod kids;
mod order;
mod part;
mod patch;
mod properties;
mod relocate;
mod remove;
mod seen;

pub use draft::Draft;
pub use seen::DraftNode;
