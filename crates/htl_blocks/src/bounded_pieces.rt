//! Pieces within the limits of a script's text.

ghost use Rattle.std.specs.Prelude.{◌≡◌, ◌≢◌, ◌≤◌, ◌<◌, ◌+◌, ◌∷◌, [], ◌++◌, true, IfErr, OnOk, OnErr, length, string_bytes};
ghost use Rattle.sp_base.specs.Limits.{most_rendered_bytes};
ghost use Rattle.htl_blocks.specs.Pieces.{inclusion_count, puts_in, text_len, with_text_piece};
ghost use Rattle.htl_blocks.specs.Refused.{most_inclusions};

use crate::piece::Piece;
use crate::run_fault::RunFault;
use sp_base::{MOST_RENDERED_BYTES, TextBuf};
use sqlite_items::Items;
use std::alloc::Global;
use std::marker::Model;

const MOST_INCLUSIONS: usize = 1000;

/// Pieces whose texts have at most 4,194,304 bytes together, with at most 1,000 that are put in. Contracts see the pieces.
#[derive(Drop)]
pub struct BoundedPieces<'a> {
    pieces: Items<Piece<'a>>,
    // How many bytes the texts have, and how many pieces are put in.
    len: usize,
    included: usize,
}

impl<'a> Model for BoundedPieces<'a> {
    ghost use Rattle.std.specs.Coded.{codes};
    ghost use Rattle.std.specs.Prelude.{List};
    ghost use Rattle.htl_syntax.specs.contracts.node.ExprNode as node;
    ghost use Rattle.htl_blocks.specs.declared.piece.Piece.{Piece};
    ghost use Rattle.htl_blocks.specs.Pieces.{AreCounted};

    ghost Value = { List Piece };

    ghost coded = { Prim.hlevel (codes, node.the_row.coded) };

    ghost view = { λ p. p.pieces };

    ghost invariant = { λ p. AreCounted p.pieces p.len p.included };
}

impl<'a> BoundedPieces<'a> {
    pub fn new(alloc: Global) -> BoundedPieces<'a>
        ensures { result ≡ [] }
    {
        BoundedPieces {
            pieces: Items::new(alloc),
            len: 0,
            included: 0,
        }
    }

    /// How many bytes of text may still be added.
    pub fn room(&self) -> usize
        ensures { result + text_len self.now ≡ most_rendered_bytes }
    {
        MOST_RENDERED_BYTES - self.len
    }

    /// Adds a text, where it isn't empty and there is room for it.
    #[tactic(auto, using(crate::proofs::Bounded::nothing_more, crate::proofs::Bounded::text_more, crate::proofs::Bounded::text_len_more, crate::proofs::Bounded::same_included))]
    pub fn push_text(&mut self, text: String) -> Result<(), RunFault>
        ensures ok { OnOk result (self.new ≡ with_text_piece self.old (string_bytes text)) }
        ensures err { OnErr result (self.new ≡ self.old) }
        ensures fault { IfErr result (λ f. f ≢ RunFault.NoMemory → (f ≡ RunFault.TooLong) × (most_rendered_bytes < text_len self.old + length (string_bytes text))) }
    {
        let added = text.as_str().len();
        if added == 0 {
            return Ok(());
        }
        if added > self.room() {
            return Err(RunFault::TooLong);
        }
        self.pieces.push(Piece::Text(TextBuf::from(text)))?;
        self.len += added;
        Ok(())
    }

    /// Adds what is put in from elsewhere, where there is room for it.
    #[tactic(auto, using(crate::proofs::Bounded::same_len, crate::proofs::Bounded::one_included))]
    pub fn push_inclusion(&mut self, piece: Piece<'a>) -> Result<(), RunFault>
        requires { puts_in piece ≡ true }
        ensures ok { OnOk result (self.new ≡ self.old ++ piece.entry ∷ []) }
        ensures err { OnErr result (self.new ≡ self.old) }
        ensures fault { IfErr result (λ f. f ≢ RunFault.NoMemory → (f ≡ RunFault.TooMany) × (most_inclusions ≤ inclusion_count self.old)) }
    {
        if self.included >= MOST_INCLUSIONS {
            return Err(RunFault::TooMany);
        }
        self.pieces.push(piece)?;
        self.included += 1;
        Ok(())
    }

    /// The pieces by themselves.
    pub fn into_pieces(self) -> Items<Piece<'a>>
        ensures pieces { result ≡ self.entry }
        ensures text { text_len result ≤ most_rendered_bytes }
        ensures inclusions { inclusion_count result ≤ most_inclusions }
    {
        let BoundedPieces {
            pieces,
            len: _,
            included: _,
        } = self;
        pieces
    }
}
