//! The whole program over a command line.

use crate::ending::CheckEnding;
use crate::form::form_of;
use crate::program::run;
use outside_world::Inputs;
use sp_base::{Items, Mem, NoMemory};
use sp_outside::{CommandWords, Sink, Words};
use std::alloc::Global;
use std::hash::RandomState;

/// Reads the words of the command line, and does what they say.
pub fn command<L: Words, I: Inputs, K: Sink>(
    alloc: Global,
    seeds: RandomState,
    line: &L,
    inputs: &mut I,
    sink: &mut K,
) -> CheckEnding {
    let Ok(words) = words_of(alloc, line) else {
        return CheckEnding::NoMemory;
    };
    match form_of(words.as_slice()) {
        Some(form) => run(alloc, seeds, form, inputs, sink),
        None => CheckEnding::Usage,
    }
}

// The words of the command line. More than three are as wrong as three.
fn words_of<L: Words>(alloc: Global, line: &L) -> Mem<CommandWords> {
    let mut words = Items::new(alloc);
    for place in 0..3 {
        match line.word(alloc, place)? {
            Some(word) => words.push(word)?,
            None => return Ok(words),
        }
    }
    Ok(words)
}
