//! What a server asks of the outside: clients on connections, and files that are read whole, each in memory and for real.
//!
//! The objects in memory tell what they hold, so that contracts can speak of it; the real ones tell nothing. The real clients stand in a
//! crate of their own.
#![tactic(auto)]

mod coming;
mod comings;
mod fault_text;
mod inputs;
mod laws;
mod mem_inputs;
mod mem_world;
mod real_inputs;
mod world;
mod world_log;

pub use comings::may_come;
pub use inputs::{InputFault, Inputs, LONGEST_INPUT};
pub use laws::{entries_add_up, happenings_that_may_come, openings_stand_in_the_log, rises_add_up};
pub use mem_inputs::MemInputs;
pub use mem_world::MemWorld;
pub use real_inputs::RealInputs;
pub use world::{
    Happening, HappeningList, LONGEST_PIECE, SendFault, Work, World, WorldEntry, WorldFault,
};
pub use world_log::WorldLog;
