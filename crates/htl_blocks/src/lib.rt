//! Block statements of the HTML Template Language (HTL specification 1.4, "Block Statements"): a script read as text and elements.
#![tactic(auto)]

mod attribute;
mod attributes;
mod block;
mod blocks;
mod bounded_pieces;
mod byte_run;
mod cut;
mod element_tags;
mod fault;
mod keeping;
mod laws;
mod markup;
mod owned_variables;
mod piece;
mod piece_list;
mod pieces;
mod quoting;
mod reader;
mod repetition;
mod run_fault;
mod setting;
mod sheet;
mod statement;
mod statement_value;
mod value;
mod variable_room;
mod written;
mod written_laws;

pub use attribute::{Attributes, Body, Unwrap};
pub use block::{Block, Tag};
pub use blocks::Blocks;
pub use fault::BlockFault;
pub use laws::{
    a_text_without_blocks_is_a_template, an_end_tag_closes_what_is_balanced,
    the_blocks_are_the_text, the_parts_are_the_text,
};
pub use owned_variables::OwnedVariables;
pub use piece::{Frame, Piece, Round};
pub use piece_list::PieceList;
pub use run_fault::RunFault;
pub use written_laws::{
    a_body_stands_in_place_of_the_content, a_content_stands_once_for_each_item,
    a_false_test_leaves_the_element_out, a_list_without_items_leaves_the_element_out,
    a_script_fits_or_has_one_fault, a_text_writes_its_template, statements_dont_show,
    unwrapping_keeps_the_content, variables_that_are_too_long_refuse_a_script,
};
