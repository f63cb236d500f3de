//! Clients at the sockets of the system: the real `World`, over `mio`.
//!
//! One thread serves them in turn. It tells nothing of what came, so contracts say of it that it is safe, that each call returns, and
//! that it answers a fault only where it counted one. What a slow client hasn't taken yet is proved to reach it whole and in order.
#![tactic(auto)]

mod listening;
mod places;
mod read_buffer;
mod ready;
mod real_world;
mod socket;
mod sockets;
mod unsent;

pub use real_world::RealWorld;
