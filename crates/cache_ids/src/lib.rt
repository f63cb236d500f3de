//! The numbers of what a cache has many of: its flights and its flushes. Each kind has a type of its own, so that neither is taken for the
//! other, nor for a count.
#![tactic(auto)]

mod flight_id;
mod flush_id;

pub use flight_id::FlightId;
pub use flush_id::FlushId;
