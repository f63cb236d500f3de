//! What the reading of blocks says of whole texts: laws of the definitions, on functions that do nothing.

ghost use Rattle.std.specs.Prelude.{◌≡◌, ◌<◌, ℕ, List, Some, Ok, Err, length};
ghost use Rattle.std.specs.List.{flat_map};
ghost use Rattle.htl_text.specs.Template.{template_of};
ghost use Rattle.htl_blocks.specs.Markup.{parts, inside_len};
ghost use Rattle.htl_blocks.specs.declared.block.Block.{Block};
ghost use Rattle.htl_blocks.specs.declared.fault.BlockFault.{BlockFault};
ghost use Rattle.htl_blocks.specs.Reading.{most_nested_blocks, text_block, blocks_of};
ghost use Rattle.htl_blocks.specs.Laws.{HasNoBlock, Closes};
ghost use Rattle.htl_blocks.specs.Spelling.{SpellsBlocks, IsFirstFault};

/// A script without a block tag is read as the template that it is.
pub fn a_text_without_blocks_is_a_template()
    ensures { (text : List ℕ) → 0 < length text → HasNoBlock (parts text) → blocks_of text ≡ text_block (template_of text) }
{}

/// The parts of a text are the text.
pub fn the_parts_are_the_text()
    ensures { (text : List ℕ) → flat_map (λ part. part) (parts text) ≡ text }
{}

/// The end tag that closes an element is the first before which the tags of its name are balanced: it is found exactly there.
pub fn an_end_tag_closes_what_is_balanced()
    ensures found { (name text : List ℕ) (n : ℕ) → inside_len name 0 0 (parts text) ≡ Some n → Closes name (parts text) n }
    ensures only { (name text : List ℕ) (n : ℕ) → Closes name (parts text) n → inside_len name 0 0 (parts text) ≡ Some n }
{}

/// The reading from left to right is the relation on whole texts: a script is read as the blocks that it spells and as no others, and a
/// fault is the one that comes before all others that stand in the script. The reading lacks no memory.
pub fn the_blocks_are_the_text()
    ensures found { (text : List ℕ) (bs : List Block) → blocks_of text ≡ Ok bs → SpellsBlocks most_nested_blocks text bs }
    ensures only { (text : List ℕ) (bs : List Block) → SpellsBlocks most_nested_blocks text bs → blocks_of text ≡ Ok bs }
    ensures fault { (text : List ℕ) (f : BlockFault) → blocks_of text ≡ Err f → IsFirstFault most_nested_blocks text f }
    ensures only_fault { (text : List ℕ) (f : BlockFault) → IsFirstFault most_nested_blocks text f → blocks_of text ≡ Err f }
{}
