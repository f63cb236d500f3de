//! Globs over the characters of a text, and lists of rules of which the last that matches decides.
#![tactic(auto)]

mod chars;
mod fault;
mod form;
mod glob;
mod laws;
mod piece;
mod read;
mod rule;
mod runs;

pub use fault::GlobFault;
pub use glob::Glob;
pub use laws::a_test_is_the_relation;
pub use piece::{GlobClass, GlobPiece, GlobRange};
pub use rule::{Rule, RuleList, allows};
