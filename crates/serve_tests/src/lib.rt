//! Tests of `serve` of `serve_loop`, which are proved apart from it.
#![tactic(auto)]

#[cfg(test)]
mod cuttings;
#[cfg(test)]
mod failing;
#[cfg(test)]
mod pages;
#[cfg(test)]
mod replaying;
#[cfg(test)]
mod serving;
