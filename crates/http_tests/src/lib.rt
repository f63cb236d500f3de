//! Tests of calls of `http_front` and `connections`, which are proved apart from them.
#![tactic(auto)]

#[cfg(test)]
mod answers;
#[cfg(test)]
mod sending;
