//! Cursors in the texts of two items, which are compared piece by piece, so that neither text is put together.

ghost use Rattle.std.specs.Prelude.{◌≡◌, ◌<◌, ◌≤◌, IfOk, OnOk, length, take};
ghost use Rattle.htl_expr.specs.Cursors.{item_piece_left, piece_left, AreSameFor};
ghost use Rattle.htl_expr.specs.Pieces.{item_piece_text};
ghost use Rattle.htl_expr.specs.Remembered.{RemembersItemTexts, KeepsItemTexts, HasPieceText};

use crate::kept::{item, keep};
use crate::pieces::ItemPiece;
use crate::scope::Scope;
use itoa::Buffer;
use sp_base::{Mem, TextBuf};
use std::alloc::Global;
use std::collections::BTreeMap;

/// How far an item was compared: the pieces before a place, and so many bytes of the piece there, of which the comma before it is one.
#[derive(Clone, Copy)]
pub(crate) struct Cursor {
    pub(crate) place: usize,
    pub(crate) bytes: usize,
}

// What is left of a piece behind so many bytes: its text, or first of all its comma alone.
fn part_behind(text: &str, bytes: usize) -> &[u8]
    requires { bytes ≤ length text.now }
    ensures some { 0 < length result.now }
    ensures front { result.now ≡ take (length result.now) (piece_left text.now bytes) }
{
    if bytes == 0 {
        ",".as_bytes()
    } else {
        &text.as_bytes()[bytes - 1..]
    }
}

// For how many bytes two parts are the same, up to the end of the shorter. Nothing where a byte differs.
#[tactic(auto, using(crate::proofs::Cursors::differ_in_front))]
fn same_for(a: &[u8], b: &[u8]) -> Option<usize>
    requires some { 0 < length a.now }
    requires some_other { 0 < length b.now }
    ensures { AreSameFor result a.now b.now }
{
    let len = a.len().min(b.len());
    if &a[..len] == &b[..len] {
        Some(len)
    } else {
        None
    }
}

// The same of two texts of pieces, behind so many bytes of each.
fn texts_same_behind(text: &str, bytes: usize, other: &str, other_bytes: usize) -> Option<usize>
    requires within { bytes ≤ length text.now }
    requires within_other { other_bytes ≤ length other.now }
    ensures { AreSameFor result (piece_left text.now bytes) (piece_left other.now other_bytes) }
{
    same_for(part_behind(text, bytes), part_behind(other, other_bytes))
}

// Makes the text of a piece that is a property, unless it is lent or was made before.
fn keep_piece(
    alloc: Global,
    scope: &Scope,
    texts: &mut BTreeMap<TextBuf, TextBuf>,
    piece: &ItemPiece,
) -> Mem<()>
    requires { RemembersItemTexts scope.now texts.old }
    ensures has { OnOk result (HasPieceText scope.now texts.new piece.now) }
    ensures keeps { OnOk result (KeepsItemTexts texts.old texts.new) }
    ensures texts { RemembersItemTexts scope.now texts.new }
{
    match piece {
        ItemPiece::Property(name) => keep(alloc, scope, texts, name),
        ItemPiece::Text(_) | ItemPiece::Long(_) => Ok(()),
    }
}

// The text of a piece. That of a property is lent or was made before, and that of a number is made in the buffer.
fn piece_text<'t>(
    scope: &'t Scope,
    texts: &'t BTreeMap<TextBuf, TextBuf>,
    piece: &'t ItemPiece,
    buffer: &'t mut Buffer,
) -> &'t str
    requires texts { RemembersItemTexts scope.now texts.now }
    requires has { HasPieceText scope.now texts.now piece.now }
    ensures { result.now ≡ item_piece_text scope.now piece.now }
{
    match piece {
        ItemPiece::Property(name) => item(scope, texts, name),
        ItemPiece::Text(text) => text,
        ItemPiece::Long(number) => buffer.format(*number),
    }
}

/// Makes the texts of two pieces, where they are properties.
#[tactic(auto, using(crate::proofs::Remembered::has_text_still))]
pub(crate) fn keep_pieces(
    alloc: Global,
    scope: &Scope,
    texts: &mut BTreeMap<TextBuf, TextBuf>,
    a: &ItemPiece,
    b: &ItemPiece,
) -> Mem<()>
    requires { RemembersItemTexts scope.now texts.old }
    ensures has { OnOk result (HasPieceText scope.now texts.new a.now) }
    ensures has_other { OnOk result (HasPieceText scope.now texts.new b.now) }
    ensures texts { RemembersItemTexts scope.now texts.new }
{
    keep_piece(alloc, scope, texts, a)?;
    keep_piece(alloc, scope, texts, b)
}

/// For how many bytes two pieces are the same, behind so many of each and up to the end of one of them or of its comma. Nothing where a
/// byte differs. Their texts are lent or were made before.
pub(crate) fn pieces_same_behind(
    scope: &Scope,
    texts: &BTreeMap<TextBuf, TextBuf>,
    a: &ItemPiece,
    bytes: usize,
    b: &ItemPiece,
    other_bytes: usize,
) -> Option<usize>
    requires texts { RemembersItemTexts scope.now texts.now }
    requires has { HasPieceText scope.now texts.now a.now }
    requires has_other { HasPieceText scope.now texts.now b.now }
    requires within { bytes ≤ length (item_piece_text scope.now a.now) }
    requires within_other { other_bytes ≤ length (item_piece_text scope.now b.now) }
    ensures { AreSameFor result (item_piece_left scope.now a.now bytes) (item_piece_left scope.now b.now other_bytes) }
{
    let mut buffer = Buffer::new();
    let mut other = Buffer::new();
    let text = piece_text(scope, texts, a, &mut buffer);
    let other_text = piece_text(scope, texts, b, &mut other);
    texts_same_behind(text, bytes, other_text, other_bytes)
}
