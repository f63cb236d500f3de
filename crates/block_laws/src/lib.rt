//! Laws of block statements: what the tags of a script are, which statements a tag has, and what they write together. Definitions and laws alone.
#![tactic(auto)]

mod laws;

pub use laws::{
    a_body_is_written_as_the_content, a_list_repeats_what_stands_within,
    a_tag_is_its_pieces_and_statements, a_true_test_changes_nothing,
    an_unwrapped_element_is_written_without_tags, each_part_is_of_a_kind, no_statement_is_left,
    statements_of_a_tag_dont_show,
};
