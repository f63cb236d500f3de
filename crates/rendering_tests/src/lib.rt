//! Tests of calls of `htl_expr`, `htl_text` and `htl_blocks`, which are proved apart from these crates.
#![tactic(auto)]

#[cfg(test)]
mod block_limits;
#[cfg(test)]
mod block_texts;
#[cfg(test)]
mod blocks;
#[cfg(test)]
mod expressions;
#[cfg(test)]
mod faults;
#[cfg(test)]
mod variables;
