//! Tests of calls of `property_json` and `content_json`, which are proved apart from these crates.
#![tactic(auto)]

#[cfg(test)]
mod properties;
#[cfg(test)]
mod unordered;
#[cfg(test)]
mod written;
