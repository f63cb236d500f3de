//! The text that the blocks of a script write, as pieces.

ghost use Rattle.std.specs.Prelude.{◌≡◌, IfOk};
ghost use Rattle.htl_blocks.specs.Pieces.{pieces_parts, within};

use crate::owned_variables::{OwnedVariables, variables_of};
use crate::piece::{Frame, Piece};
use htl_expr::Scope;
use sp_base::Mem;
use sqlite_items::Items;
use std::alloc::Global;
use std::marker::Model;

/// The text of a script, with what is put in from elsewhere. Contracts see the parts that the pieces stand for, what they were made for,
/// and how often the contents of lists stood.
#[derive(Drop)]
pub struct PieceList<'a> {
    pub(crate) scope: Scope<'a>,
    pub(crate) pieces: Items<Piece<'a>>,
    pub(crate) rounds: usize,
}

impl<'a> Model for PieceList<'a> {
    ghost use Rattle.htl_blocks.specs.Pieces.{ScriptText, pieces_parts};

    ghost Value = { ScriptText };

    ghost view = { λ l. record { scope = l.scope; parts = pieces_parts l.scope l.pieces; rounds = l.rounds } };
}

impl<'a> PieceList<'a> {
    /// The pieces in their order.
    pub fn pieces(&self) -> &[Piece<'a>]
        ensures { pieces_parts self.now.scope result.now ≡ self.now.parts }
    {
        self.pieces.as_slice()
    }

    /// How often the contents of lists stood.
    pub fn rounds(&self) -> usize
        ensures { result ≡ self.now.rounds }
    {
        self.rounds
    }

    /// The variables of the setting where a script is put in.
    pub fn variables(&self, alloc: Global, frame: &Frame<'a>) -> Mem<OwnedVariables<'a>>
        ensures { IfOk result (λ vars. vars ≡ (within self.now.scope frame.now.rounds).vars) }
    {
        variables_of(alloc, &self.scope, frame)
    }
}
