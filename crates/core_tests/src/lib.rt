//! Tests of calls of `coherence_core`, which are proved apart from it.
#![tactic(auto)]

#[cfg(test)]
mod known_pages;
