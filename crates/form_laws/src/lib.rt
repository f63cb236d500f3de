//! Laws of what a form's names and fields are: parameters of a header field, and relative names. Definitions and laws alone.
#![tactic(auto)]

mod laws;

pub use laws::{parameters_are_as_they_are_spelled, relative_names_are_resolved};
