//! How a glob is compared with a text: most globs are one comparison of bytes.
ghost use Rattle.std.specs.Prelude.{◌≡◌, ◌≢◌, ◌∷◌, ◌++◌, [], List, ℕ, IfOk, MatchOption};
ghost use Rattle.std.specs.Str.{chars};
ghost use Rattle.glob_rules.specs.Forms.{IsForm, literals};
ghost use Rattle.glob_rules.specs.Globs.{is_match};
ghost use Rattle.glob_rules.specs.declared.piece.GlobPiece.{GlobPiece as ContentPiece};
ghost use Rattle.glob_rules.specs.declared.piece.GlobPiece.TheVariants.{Star};

use crate::piece::GlobPiece;
use sp_base::{Mem, TextBuf};
use std::alloc::Global;

/// What of a text a glob compares at once, with its literal text.
#[derive(Clone, Copy)]
pub(crate) enum GlobForm {
    /// All of it.
    Whole,
    Beginning,
    Ending,
    /// Nothing: it is matched piece by piece.
    Pieces,
}

/// The form of these pieces, and the literal text.
pub(crate) fn form_of(alloc: Global, pieces: &[GlobPiece]) -> Mem<(GlobForm, TextBuf)>
    ensures { IfOk result (λ formed. IsForm formed.0 formed.1 pieces.now) }
{
    if let Some(later) = after_star(pieces) {
        return ending(alloc, later);
    }
    match before_star(pieces) {
        Some(run) => beginning(alloc, run),
        None => whole(alloc, pieces),
    }
}

// The pieces after a star that comes first.
fn after_star(pieces: &[GlobPiece]) -> Option<&[GlobPiece]>
    ensures { MatchOption result ((later : List ContentPiece) → pieces.now ≢ Star ∷ later) (λ later. pieces.now ≡ Star ∷ later.now) }
{
    match pieces {
        [GlobPiece::Star, later @ ..] => Some(later),
        _ => None,
    }
}

// The pieces before a star that comes last.
fn before_star(pieces: &[GlobPiece]) -> Option<&[GlobPiece]>
    ensures { MatchOption result ((run : List ContentPiece) → pieces.now ≢ run ++ Star ∷ []) (λ run. pieces.now ≡ run.now ++ Star ∷ []) }
{
    match pieces {
        [run @ .., GlobPiece::Star] => Some(run),
        _ => None,
    }
}

// The form of pieces with no star at an end.
#[tactic(auto, using(crate::proofs::FormLemmas::by_pieces))]
fn whole(alloc: Global, pieces: &[GlobPiece]) -> Mem<(GlobForm, TextBuf)>
    requires first { (later : List ContentPiece) → pieces.now ≢ Star ∷ later }
    requires last { (run : List ContentPiece) → pieces.now ≢ run ++ Star ∷ [] }
    ensures { IfOk result (λ formed. IsForm formed.0 formed.1 pieces.now) }
{
    match literal_text(alloc, pieces)? {
        Some(text) => Ok((GlobForm::Whole, text)),
        None => Ok(by_pieces(alloc)),
    }
}

// The form of pieces and a star after them.
#[tactic(auto, using(crate::proofs::FormLemmas::by_pieces_before))]
fn beginning(alloc: Global, run: &[GlobPiece]) -> Mem<(GlobForm, TextBuf)>
    ensures { IfOk result (λ formed. IsForm formed.0 formed.1 (run.now ++ Star ∷ [])) }
{
    match literal_text(alloc, run)? {
        Some(text) => Ok((GlobForm::Beginning, text)),
        None => Ok(by_pieces(alloc)),
    }
}

// The form of a star and the pieces after it.
#[tactic(auto, using(crate::proofs::FormLemmas::by_pieces_after))]
fn ending(alloc: Global, later: &[GlobPiece]) -> Mem<(GlobForm, TextBuf)>
    ensures { IfOk result (λ formed. IsForm formed.0 formed.1 (Star ∷ later.now)) }
{
    match literal_text(alloc, later)? {
        Some(text) => Ok((GlobForm::Ending, text)),
        None => Ok(by_pieces(alloc)),
    }
}

// The form of any pieces, with no text.
fn by_pieces(alloc: Global) -> (GlobForm, TextBuf)
    ensures { result.0 ≡ GlobForm.Pieces }
{
    (GlobForm::Pieces, TextBuf::from(String::new(alloc)))
}

// The text of pieces that stand for one character each, exactly if they all do.
fn literal_text(alloc: Global, pieces: &[GlobPiece]) -> Mem<Option<TextBuf>>
    ensures { IfOk result (λ found. MatchOption found ((text : List ℕ) → pieces.now ≢ literals text) (λ text. pieces.now ≡ literals text)) }
{
    let mut text = String::new(alloc);
    for piece in pieces {
        let GlobPiece::Literal(c) = piece else {
            return Ok(None);
        };
        text.push(*c)?;
    }
    Ok(Some(TextBuf::from(text)))
}

/// Whether a text is this one.
pub(crate) fn is_text(text: &str, literal: &str) -> bool
    ensures { result ≡ is_match (literals literal.now) (chars text.now) }
{
    text == literal
}

/// Whether a text begins with this one.
pub(crate) fn begins_with(text: &str, literal: &str) -> bool
    ensures { result ≡ is_match (literals literal.now ++ Star ∷ []) (chars text.now) }
{
    text.as_bytes().starts_with(literal.as_bytes())
}

/// Whether a text ends with this one.
pub(crate) fn ends_with(text: &str, literal: &str) -> bool
    ensures { result ≡ is_match (Star ∷ literals literal.now) (chars text.now) }
{
    text.as_bytes().ends_with(literal.as_bytes())
}
