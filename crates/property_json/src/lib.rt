//! The JSON of properties (RFC 8259): a value as text, number, truth or array, and a property list as members in the order of
//! the names.
#![tactic(auto)]

mod laws;
mod write;

pub use laws::properties_come_first;
pub use write::{object_text, write_properties, write_texts, write_value};
