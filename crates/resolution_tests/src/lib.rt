//! Tests of calls of `url_split`, `type_chain`, `script_rank` and `overlay_merge`, which are proved apart from these crates.
#![tactic(auto)]

#[cfg(test)]
mod calls;
#[cfg(test)]
mod script_walk;
#[cfg(test)]
mod splits;
