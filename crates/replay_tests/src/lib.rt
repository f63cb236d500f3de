//! Tests of calls of `replay_text`, which are proved apart from it.
#![tactic(auto)]

#[cfg(test)]
mod texts;
