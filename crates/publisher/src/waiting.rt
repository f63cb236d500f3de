// The least that waits to be written, while a page is put together.

ghost use Rattle.std.specs.Prelude.{◌≡◌, ◌≤◌, ◌+◌, ◌-◌};
ghost use Rattle.htl_expr.specs.Bindings.{Bindings};
ghost use Rattle.htl_blocks.specs.Pieces.{piece_parts};
ghost use Rattle.publisher.specs.Waits.{IsLeastOf, IsSizeOf, nothing};

use htl_blocks::{Piece, PieceList};

/// The least that waits to be written: bytes of text, and scripts and resources that are to be put in. It is written whatever stands before
/// it, so a page that passes a limit with it is refused at once, and all texts that wait have no more bytes than a page may have.
#[derive(Clone, Copy, Drop)]
pub(crate) struct Waiting {
    pub(crate) text: usize,
    pub(crate) inclusions: usize,
}

impl Waiting {
    pub(crate) fn nothing() -> Waiting
        ensures { result ≡ nothing }
    {
        Waiting {
            text: 0,
            inclusions: 0,
        }
    }

    /// With what waits beside it, at most.
    pub(crate) fn beside(self, more: Waiting) -> Waiting
        ensures text { result.text ≤ self.text + more.text }
        ensures inclusions { result.inclusions ≤ self.inclusions + more.inclusions }
    {
        Waiting {
            text: self.text.saturating_add(more.text),
            inclusions: self.inclusions.saturating_add(more.inclusions),
        }
    }

    /// Without what is written.
    pub(crate) fn without(self, written: Waiting) -> Waiting
        ensures text { result.text ≡ self.text - written.text }
        ensures inclusions { result.inclusions ≡ self.inclusions - written.inclusions }
    {
        Waiting {
            text: self.text.saturating_sub(written.text),
            inclusions: self.inclusions.saturating_sub(written.inclusions),
        }
    }
}

/// What a piece writes by itself.
pub(crate) fn size_of_piece(piece: &Piece) -> Waiting
    ensures { (scope : Bindings) → IsSizeOf result (piece_parts scope piece.now) }
{
    match piece {
        Piece::Text(text) => Waiting {
            text: text.text().len(),
            inclusions: 0,
        },
        Piece::Script(..) => Waiting {
            text: 0,
            inclusions: 1,
        },
        Piece::Resource(..) => Waiting {
            text: 0,
            inclusions: 1,
        },
    }
}

/// The least that all pieces write.
pub(crate) fn least_of(list: &PieceList) -> Waiting
    ensures { IsLeastOf result list.now.parts }
{
    let mut least = Waiting::nothing();
    for piece in list.pieces() {
        least = least.beside(size_of_piece(piece));
    }
    least
}
