//! Tests of the outside of a server, which are proved apart from its crate.
#![tactic(auto)]

#[cfg(test)]
mod mem_inputs;
#[cfg(test)]
mod mem_world;
#[cfg(test)]
mod real_inputs;
