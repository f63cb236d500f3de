//! What block statements are in the words of their language: laws of the definitions, on functions that do nothing.

ghost use Rattle.std.specs.Prelude.{◌≡◌, List, Some};
ghost use Rattle.sp_base.specs.Texts.{Text};
ghost use Rattle.htl_expr.specs.Bindings.{Bindings};
ghost use Rattle.htl_blocks.specs.declared.attribute.Attribute.{Attribute};
ghost use Rattle.htl_blocks.specs.declared.attribute.Attributes.{Attributes};
ghost use Rattle.htl_blocks.specs.declared.block.Tag.{Tag};
ghost use Rattle.htl_blocks.specs.declared.block.Block.{Block};
ghost use Rattle.htl_blocks.specs.Attributes.{tag_attributes};
ghost use Rattle.htl_blocks.specs.Markup.{parts};
ghost use Rattle.htl_blocks.specs.Spelling.{whole_text};
ghost use Rattle.block_laws.specs.PartKinds.{AreParts};
ghost use Rattle.block_laws.specs.ShownTags.{StatementsDontShowInTags, StatementsDontShowInTagsOfLists};
ghost use Rattle.block_laws.specs.TagStatements.{HasNoStatementLeftIfApart, IsTagWith};
ghost use Rattle.block_laws.specs.Together.{IsWrittenAsWithoutTestIfTrue, IsWrittenAsWithoutTagsIfUnwrapped, IsWrittenAsWithoutUnwrapIfFalse, ListsRepeatWhatStandsWithin, TextsStandAsContent, BodiesStandAsContent};

/// An element whose test is true writes what it writes without the test, whatever else it has.
pub fn a_true_test_changes_nothing()
    ensures { (scope : Bindings) (tag : Tag) (content : List Block) (end_tag : Text) → IsWrittenAsWithoutTestIfTrue scope tag content end_tag }
{}

/// An unwrapped element writes what it writes without its tags, whatever else it has (`tags`). One whose unwrap is false is written as without
/// it (`unwrap`).
pub fn an_unwrapped_element_is_written_without_tags()
    ensures tags { (scope : Bindings) (tag : Tag) (content : List Block) (end_tag : Text) → IsWrittenAsWithoutTagsIfUnwrapped scope tag content end_tag }
    ensures unwrap { (scope : Bindings) (tag : Tag) (content : List Block) (end_tag : Text) → IsWrittenAsWithoutUnwrapIfFalse scope tag content end_tag }
{}

/// An element with a list writes its tags once, and between them what stands in it, once for each item, in order, with the item as the
/// variable: its content, or its text, include or resource.
pub fn a_list_repeats_what_stands_within()
    ensures { ListsRepeatWhatStandsWithin }
{}

/// An element with a text, an include or a resource writes what it writes with that as its content, whatever else it has.
pub fn a_body_is_written_as_the_content()
    ensures text { TextsStandAsContent }
    ensures body { BodiesStandAsContent }
{}

/// Each part of a text is of one of the kinds: a tag up to its first `>` outside quotes, an end tag, or a byte at which neither begins (`each`).
/// No text has other parts of these kinds (`only`).
pub fn each_part_is_of_a_kind()
    ensures each { (t : Text) → AreParts (parts t) }
    ensures only { (ps : List Text) → AreParts ps → parts (whole_text ps) ≡ ps }
{}

/// A tag has statements, and without them it is a text, exactly where it is that text in pieces, with the statements and the blanks before each
/// between the pieces: each statement a name with its value, of each kind one at most.
pub fn a_tag_is_its_pieces_and_statements()
    ensures found { (tag kept : Text) (a : Attributes) → tag_attributes tag ≡ Some (a, kept) → IsTagWith tag a kept }
    ensures only { (tag kept : Text) (a : Attributes) → IsTagWith tag a kept → tag_attributes tag ≡ Some (a, kept) }
{}

/// What is left of a tag has no statement, where after each of its statements the tag goes on with a blank, `/` or `>`, or ends.
pub fn no_statement_is_left()
    ensures { (tag : Text) (pieces : List Text) (each : List Attribute) → HasNoStatementLeftIfApart tag pieces each }
{}

/// Of an element that stands in its tags show the text of the start tag without the statements, then what stands in it, and then the end tag
/// (`once`); with a list, what stands in it once for each item (`list`).
pub fn statements_of_a_tag_dont_show()
    ensures once { StatementsDontShowInTags }
    ensures list { StatementsDontShowInTagsOfLists }
{}
