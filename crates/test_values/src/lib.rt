//! What the crates of tests share: an answer as a test writes it.
#![tactic(auto)]

mod answers;

pub use answers::answer_of;
