//! The numbers of connections. They have a type of their own, so that none is taken for the number of something else, nor for a count.
#![tactic(auto)]

mod connection_id;

pub use connection_id::ConnectionId;
