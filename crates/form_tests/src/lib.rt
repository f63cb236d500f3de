//! Tests of calls of `form_input`, `post_plan` and `post_apply`, which are proved apart from these crates.
#![tactic(auto)]

#[cfg(test)]
mod bodies;
#[cfg(test)]
mod forms;
#[cfg(test)]
mod plans;
#[cfg(test)]
mod posts;
