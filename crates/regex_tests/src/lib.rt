//! Tests of calls of `regex_rules`, which are proved apart from it.
#![tactic(auto)]

#[cfg(test)]
mod faults;
#[cfg(test)]
mod matches;
#[cfg(test)]
mod yardstick;
