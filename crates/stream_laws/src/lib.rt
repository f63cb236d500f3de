//! Laws of the streams of connections. Definitions and laws alone.
#![tactic(auto)]

mod laws;

pub use laws::no_stream_is_without_turns;
