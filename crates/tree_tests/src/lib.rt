//! Tests of calls of `resource_tree` and `tree_draft`, which are proved apart from them.
#![tactic(auto)]

#[cfg(test)]
mod changes;
#[cfg(test)]
mod limits;
#[cfg(test)]
mod nodes;
#[cfg(test)]
mod patches;
#[cfg(test)]
mod refusals;
