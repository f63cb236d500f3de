//! What an element writes, statement by statement: laws of the definitions, on functions that do nothing.

ghost use Rattle.std.specs.Prelude.{◌≡◌, ℕ, List};
ghost use Rattle.htl_expr.specs.Bindings.{Bindings};
ghost use Rattle.htl_text.specs.declared.piece.TemplatePiece.{TemplatePiece};
ghost use Rattle.htl_text.specs.Template.{template_output};
ghost use Rattle.htl_blocks.specs.declared.attribute.Body.TheVariants as body;
ghost use Rattle.htl_blocks.specs.declared.block.Tag.{Tag};
ghost use Rattle.htl_blocks.specs.declared.block.Block.{Block};
ghost use Rattle.htl_blocks.specs.declared.block.Block.TheVariants.{Text};
ghost use Rattle.htl_blocks.specs.Parts.{Part, text_parts};
ghost use Rattle.htl_blocks.specs.Refused.{FitsOrHasAFault, HasOneFaultAtMost, HasNoFaultIfItFits};
ghost use Rattle.htl_blocks.specs.Written.{block_parts};
ghost use Rattle.htl_blocks.specs.WrittenLaws.{IsLeftOutIfUntrue, IsItsContentIfUnwrappedWithoutListOrBody, IsWrittenWholeIfInTagsWithoutListOrBody, IsWrittenIfVariablesFit, IsRefusedIfVariablesAreTooLong, IsRefusedIfRoundIsOneTooMany, ListElementsWriteEachItem, ElementsWithoutListAreLeftOut, ElementsWithoutItemsAreLeftOut, TextsStandInTags, ScriptsStandInTags, ResourcesStandInTags};

/// An element whose test is false is left out.
pub fn a_false_test_leaves_the_element_out()
    ensures { (scope : Bindings) (tag : Tag) (content : List Block) (end_tag : List ℕ) → IsLeftOutIfUntrue scope tag content end_tag }
{}

/// The content of an element stands between its tags once for each item of its list, in their order, with the item as the variable. The
/// tags stand once.
pub fn a_content_stands_once_for_each_item()
    ensures { ListElementsWriteEachItem }
{}

/// Where the variables of a setting have together at most 4,194,304 bytes, what stands there is written (`fit`). Else the script is refused,
/// whatever stands before and after. If fewer than 1,000,000 rounds stand before, that is because it is too long (`long`). If as many do,
/// the round is one too many: it is too long if what stands before is, and else has too many rounds, whatever the variables are (`late`).
pub fn variables_that_are_too_long_refuse_a_script()
    ensures fit { (inside : Bindings → List Part) (scope : Bindings) (name item : List ℕ) → IsWrittenIfVariablesFit inside scope name item }
    ensures long { (inside : Bindings → List Part) (scope : Bindings) (name item : List ℕ) → IsRefusedIfVariablesAreTooLong inside scope name item }
    ensures late { (inside : Bindings → List Part) (scope : Bindings) (name item : List ℕ) → IsRefusedIfRoundIsOneTooMany inside scope name item }
{}

/// What a script writes is within the limits or has a fault (`some`), and never two of them (`one`) or one beside the other (`none`).
pub fn a_script_fits_or_has_one_fault()
    ensures some { (ps : List Part) → FitsOrHasAFault ps }
    ensures one { (ps : List Part) → HasOneFaultAtMost ps }
    ensures none { (ps : List Part) → HasNoFaultIfItFits ps }
{}

/// An element whose list is none, or has no items, is left out.
pub fn a_list_without_items_leaves_the_element_out()
    ensures none { ElementsWithoutListAreLeftOut }
    ensures empty { ElementsWithoutItemsAreLeftOut }
{}

/// The printed value, the text of a script with the variables of the setting, or that of a resource stands in place of the content.
pub fn a_body_stands_in_place_of_the_content()
    ensures text { TextsStandInTags }
    ensures script { ScriptsStandInTags }
    ensures resource { ResourcesStandInTags }
{}

/// Unwrapping leaves the tags out and keeps the content.
pub fn unwrapping_keeps_the_content()
    ensures { (scope : Bindings) (tag : Tag) (content : List Block) (end_tag : List ℕ) → IsItsContentIfUnwrappedWithoutListOrBody scope tag content end_tag }
{}

/// Of a tag stands what its template writes, which is its text without the statements: they themselves don't show.
pub fn statements_dont_show()
    ensures { (scope : Bindings) (tag : Tag) (content : List Block) (end_tag : List ℕ) → IsWrittenWholeIfInTagsWithoutListOrBody scope tag content end_tag }
{}

/// A template writes its own text.
pub fn a_text_writes_its_template()
    ensures { (scope : Bindings) (pieces : List TemplatePiece) → block_parts (Text pieces) scope ≡ text_parts (template_output scope pieces) }
{}
