//! The value of a Location field (RFC 9110, section 10.2.2).
#![tactic(auto)]

mod location;

pub use location::location_of;
