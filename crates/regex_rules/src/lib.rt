//! Regular expressions of a small language of their own, over the characters of whole texts.
#![tactic(auto)]

mod character;
mod chars;
mod class_reader;
mod fault;
mod follow_table;
mod frames;
mod fronts;
mod laws;
mod level;
mod linking;
mod marks;
mod matching;
mod mode;
mod open_rows;
mod pattern;
mod place;
mod place_list;
mod positions;
mod read;
mod reader;
mod repeat;
mod takers;
mod walk;

pub use character::{CharClass, CharRange, OneChar};
pub use fault::PatternFault;
pub use laws::{
    a_text_and_its_tree, a_text_spells_the_tree_it_is_read_as, the_pattern_reading_is_the_grammar,
    the_test_is_the_language, the_ways_are_the_language,
};
pub use pattern::Pattern;
pub use place::PatternPlace;
pub use repeat::Repeat;
