//! A glob, and what it matches.
ghost use Rattle.std.specs.Prelude.{◌≡◌, ◌↔◌, [], ◌∷◌, IsTrue};
ghost use Rattle.std.specs.Str.{chars};
ghost use Rattle.glob_rules.specs.Globs.{Matches, is_match};
ghost use Rattle.glob_rules.specs.declared.piece.GlobPiece.TheVariants.{Star};

use crate::chars::is_empty;
use crate::form::{GlobForm, begins_with, ends_with, is_text};
use crate::piece::GlobPiece;
use crate::runs::{after_first_run, after_run, is_at_end, split_at_star};
use sp_base::TextBuf;
use std::marker::Model;

/// A pattern for whole texts. Contracts see its pieces.
#[derive(Drop)]
pub struct Glob {
    pub(crate) pieces: Vec<GlobPiece>,
    pub(crate) form: GlobForm,
    pub(crate) literal: TextBuf,
}

impl Model for Glob {
    ghost use Rattle.std.specs.Prelude.{List};
    ghost use Rattle.glob_rules.specs.declared.piece.GlobPiece.{GlobPiece};

    ghost Value = { List GlobPiece };

    ghost view = { λ g. g.pieces.items };

    ghost use Rattle.glob_rules.specs.Forms.{IsForm};

    ghost invariant = { λ g. IsForm g.form g.literal g.pieces.items };
}

impl Glob {
    /// Whether the glob matches the whole text. A `?` and a class stand for one character, however many bytes it has.
    #[tactic(auto, using(crate::proofs::MatchLemmas::related))]
    pub fn matches(&self, text: &str) -> bool
        ensures value { result ≡ is_match self.now (chars text.now) }
        ensures relation { IsTrue result ↔ Matches self.now (chars text.now) }
    {
        match self.form {
            GlobForm::Whole => is_text(text, self.literal.text()),
            GlobForm::Beginning => begins_with(text, self.literal.text()),
            GlobForm::Ending => ends_with(text, self.literal.text()),
            GlobForm::Pieces => is_match(self.pieces.as_slice(), text),
        }
    }
}

fn is_match(pieces: &[GlobPiece], text: &str) -> bool
    ensures { result ≡ is_match pieces.now (chars text.now) }
{
    let (run, later) = split_at_star(pieces);
    let Some(rest) = after_run(run, text) else {
        return false;
    };
    match later {
        [] => is_empty(rest),
        [_, next @ ..] => matches_somewhere(next, rest),
    }
}

// Whether pieces match what stands from some place on. Each run of pieces is looked for once: a text after its first place ends
// with each text after a later one, and more of a text leaves a star more to run over.
fn matches_somewhere(pieces: &[GlobPiece], text: &str) -> bool
    ensures { result ≡ is_match (Star ∷ pieces.now) (chars text.now) }
{
    let mut left = pieces;
    let mut rest = text;
    loop {
        let (run, later) = split_at_star(left);
        match later {
            [] => return is_at_end(run, rest),
            [_, next @ ..] => {
                let Some(after) = after_first_run(run, rest) else {
                    return false;
                };
                left = next;
                rest = after;
            }
        }
    }
}
