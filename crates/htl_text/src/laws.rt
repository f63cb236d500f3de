//! What a template is: laws of the definitions, on a function that does nothing.

ghost use Rattle.std.specs.Prelude.{◌≡◌, ℕ, List, [], Ok, Err};
ghost use Rattle.htl_text.specs.declared.fault.TextFault.{TextFault};
ghost use Rattle.htl_text.specs.declared.piece.TemplatePiece.{TemplatePiece};
ghost use Rattle.htl_text.specs.Spelling.{SpellsTemplate, IsFirstOpening};
ghost use Rattle.htl_text.specs.Template.{template_of};

use htl_syntax::the_template_reading_is_the_grammar;

/// The reading from left to right is the relation on whole texts: a text is read as the pieces that it spells and as no others, and a
/// fault is that of the first expression that is not closed, or that is none by the grammar. The reading lacks no memory.
pub fn the_pieces_are_the_text()
    ensures found { (text : List ℕ) (ps : List TemplatePiece) → template_of text ≡ Ok ps → SpellsTemplate text ps [] }
    ensures only { (text : List ℕ) (ps : List TemplatePiece) → SpellsTemplate text ps [] → template_of text ≡ Ok ps }
    ensures fault { (text : List ℕ) (f : TextFault) → template_of text ≡ Err f → IsFirstOpening f text }
    ensures only_fault { (text : List ℕ) (f : TextFault) → IsFirstOpening f text → template_of text ≡ Err f }
{
    the_template_reading_is_the_grammar();
}
