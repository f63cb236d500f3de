//! The answers of errors: a status and its reason phrase (RFC 9110, section 15).
#![tactic(auto)]

mod errors;

pub use errors::{error_answer, phrase_of};
