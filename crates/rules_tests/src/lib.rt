//! Tests of calls of `glob_rules`, `any_config`, `cover_rules`, `dispatch_rules`, `flights` and `invalidation`, which are proved apart from these crates.
#![tactic(auto)]

#[cfg(test)]
mod coverage;
#[cfg(test)]
mod decisions;
#[cfg(test)]
mod flight_room;
#[cfg(test)]
mod globs;
#[cfg(test)]
mod invalidations;
#[cfg(test)]
mod patterns;
