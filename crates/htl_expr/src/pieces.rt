//! The pieces of which the text of an item of a list literal is put together.

ghost use Rattle.std.specs.Prelude.{◌≡◌, ◌<◌, ◌≤◌, ◌+◌, ◌∷◌, [], List, IfOk, IfSome, OnOk, nat_eq, length, get_or, flat_map, true};
ghost use Rattle.std.specs.Cmp.Lexicographic.{pointwise};
ghost use Rattle.htl_expr.specs.Cursors.{item_left_behind, item_piece_behind, piece_behind, StandsIn, MovesOn, AreSameFor};
ghost use Rattle.htl_expr.specs.declared.pieces.ItemPiece.{ItemPiece};
ghost use Rattle.htl_expr.specs.Pieces.{item_piece_text, piece_texts, with_commas, AgreeUpTo, DifferAt, AreAsLongAt};

use crate::cursor::Cursor;
use crate::evaluation::Evaluation;
use crate::lists::long_text;
use sp_base::{Mem, NoMemory, TextBuf};
use sqlite_items::Items;
use std::alloc::Global;

/// A part of an item's text. Between two stands a comma.
#[derive(Clone, Copy)]
pub(crate) enum ItemPiece<'a> {
    /// The text that a property has as an item.
    Property(&'a TextBuf),
    Text(&'a str),
    Long(i64),
}

/// A piece alone.
pub(crate) fn piece_alone<'a>(alloc: Global, piece: ItemPiece<'a>) -> Mem<Items<ItemPiece<'a>>>
    ensures { IfOk result (λ pieces. pieces ≡ piece.entry ∷ []) }
{
    let mut pieces = Items::new(alloc);
    pieces.push(piece)?;
    Ok(pieces)
}

/// The pieces of all items of a list literal.
pub(crate) fn all_pieces<'a>(
    alloc: Global,
    items: &[Items<ItemPiece<'a>>],
) -> Mem<Items<ItemPiece<'a>>>
    ensures { IfOk result (λ all. all ≡ flat_map (λ (pieces : List ItemPiece). pieces) items.now) }
{
    let mut all = Items::new(alloc);
    for pieces in items {
        all.append(Items::from_slice(alloc, pieces.as_slice())?)?;
    }
    Ok(all)
}

// Whether a piece has this text.
fn has_text(alloc: Global, scope: &mut Evaluation, piece: &ItemPiece, text: &str) -> Mem<bool>
    ensures same { IfOk result (λ same. same ≡ pointwise nat_eq (item_piece_text scope.old piece.now) text.now) }
    ensures scope { scope.new ≡ scope.old }
{
    match piece {
        ItemPiece::Property(name) => scope.is_item(alloc, name, text),
        ItemPiece::Text(other) => Ok(*other == text),
        ItemPiece::Long(number) => Ok(long_text(alloc, *number)?.text() == text),
    }
}

// Whether two pieces have the same text. Properties are compared by their numbers.
#[tactic(auto, using(crate::proofs::SameItems::same_swapped))]
fn is_same_piece(alloc: Global, scope: &mut Evaluation, a: &ItemPiece, b: &ItemPiece) -> Mem<bool>
    ensures same { IfOk result (λ same. same ≡ pointwise nat_eq (item_piece_text scope.old a.now) (item_piece_text scope.old b.now)) }
    ensures scope { scope.new ≡ scope.old }
{
    match (a, b) {
        (ItemPiece::Property(a), ItemPiece::Property(b)) => scope.has_same_item(alloc, a, b),
        (_, ItemPiece::Text(text)) => has_text(alloc, scope, a, text),
        (_, ItemPiece::Long(number)) => {
            has_text(alloc, scope, a, long_text(alloc, *number)?.text())
        }
        (ItemPiece::Text(text), _) => has_text(alloc, scope, b, text),
        (ItemPiece::Long(number), _) => {
            has_text(alloc, scope, b, long_text(alloc, *number)?.text())
        }
    }
}

// How many bytes a piece has.
fn piece_len(alloc: Global, scope: &mut Evaluation, piece: &ItemPiece) -> Mem<usize>
    ensures len { IfOk result (λ len. len ≡ length (item_piece_text scope.old piece.now)) }
    ensures scope { scope.new ≡ scope.old }
{
    match piece {
        ItemPiece::Property(name) => scope.item_len(alloc, name),
        ItemPiece::Text(text) => Ok(text.len()),
        ItemPiece::Long(number) => Ok(long_text(alloc, *number)?.text().len()),
    }
}

#[tactic(auto, using(crate::proofs::SameItems::get_or_of_map))]
fn is_same_piece_at(
    alloc: Global,
    scope: &mut Evaluation,
    a: &[ItemPiece],
    b: &[ItemPiece],
    place: usize,
) -> Mem<bool>
    requires within { place < length a.now }
    requires within_other { place < length b.now }
    ensures same { IfOk result (λ same. same ≡ pointwise nat_eq (get_or (piece_texts scope.old a.now) place []) (get_or (piece_texts scope.old b.now) place [])) }
    ensures scope { scope.new ≡ scope.old }
{
    is_same_piece(alloc, scope, &a[place], &b[place])
}

// How many of the first pieces are the same, place by place.
fn same_in_prefix(
    alloc: Global,
    scope: &mut Evaluation,
    a: &[ItemPiece],
    b: &[ItemPiece],
) -> Mem<usize>
    ensures agree { IfOk result (AgreeUpTo (piece_texts scope.old a.now) (piece_texts scope.old b.now)) }
    ensures differs { IfOk result (DifferAt (piece_texts scope.old a.now) (piece_texts scope.old b.now)) }
    ensures scope { scope.new ≡ scope.old }
{
    for place in 0..a.len() {
        if place == b.len() || !is_same_piece_at(alloc, scope, a, b, place)? {
            return Ok(place);
        }
    }
    Ok(a.len())
}

#[tactic(auto, using(crate::proofs::SameItems::get_or_of_map))]
fn len_at(alloc: Global, scope: &mut Evaluation, pieces: &[ItemPiece], place: usize) -> Mem<usize>
    requires { place < length pieces.now }
    ensures len { IfOk result (λ len. len ≡ length (get_or (piece_texts scope.old pieces.now) place [])) }
    ensures scope { scope.new ≡ scope.old }
{
    piece_len(alloc, scope, &pieces[place])
}

// How many bytes the pieces have, with a comma before each.
fn len_with_commas(alloc: Global, scope: &mut Evaluation, pieces: &[ItemPiece]) -> Mem<usize>
    ensures len { IfOk result (λ len. len ≡ length (with_commas (piece_texts scope.old pieces.now))) }
    ensures scope { scope.new ≡ scope.old }
{
    let mut len: usize = 0;
    for place in 0..pieces.len() {
        let more = len_at(alloc, scope, pieces, place)?;
        len = longer_by(len, more)?;
    }
    Ok(len)
}

// No text has more bytes than fit into memory.
fn longer_by(len: usize, more: usize) -> Mem<usize>
    ensures { IfOk result (λ sum. sum ≡ len + (1 + more)) }
{
    match len.checked_add(more) {
        Some(sum) => match sum.checked_add(1) {
            Some(sum) => Ok(sum),
            None => Err(NoMemory),
        },
        None => Err(NoMemory),
    }
}

// Whether pieces at a place have as many bytes.
fn is_as_long_at(
    alloc: Global,
    scope: &mut Evaluation,
    a: &[ItemPiece],
    b: &[ItemPiece],
    place: usize,
) -> Mem<bool>
    ensures long { IfOk result (λ long. long ≡ true → AreAsLongAt scope.old a.now b.now place) }
    ensures scope { scope.new ≡ scope.old }
{
    if place >= a.len() || place >= b.len() {
        return Ok(false);
    }
    let first = len_at(alloc, scope, a, place)?;
    let second = len_at(alloc, scope, b, place)?;
    Ok(first == second)
}

// For how many bytes two items are the same behind their cursors, up to the end of a piece or a comma. Nothing where a byte differs.
#[tactic(auto, using(crate::proofs::SameItems::get_or_of_map))]
fn same_behind(
    alloc: Global,
    scope: &mut Evaluation,
    a: &[ItemPiece],
    first: &Cursor,
    b: &[ItemPiece],
    second: &Cursor,
) -> Mem<Option<usize>>
    requires within { first.now.place < length a.now }
    requires within_other { second.now.place < length b.now }
    requires stands { StandsIn (piece_texts scope.old a.now) first.now }
    requires stands_other { StandsIn (piece_texts scope.old b.now) second.now }
    ensures same { IfOk result (λ same. AreSameFor same (item_piece_behind scope.old a.now first.now) (item_piece_behind scope.old b.now second.now)) }
    ensures scope { scope.new ≡ scope.old }
{
    scope.same_behind(
        alloc,
        &a[first.place],
        first.bytes,
        &b[second.place],
        second.bytes,
    )
}

// Goes on by so many bytes of the piece there, and behind its last byte to the piece after it.
fn advance(
    alloc: Global,
    scope: &mut Evaluation,
    pieces: &[ItemPiece],
    cursor: &mut Cursor,
    more: usize,
) -> Mem<()>
    requires within { cursor.old.place < length pieces.now }
    requires stands { StandsIn (piece_texts scope.old pieces.now) cursor.old }
    requires more { more ≤ length (piece_behind (piece_texts scope.old pieces.now) cursor.old) }
    ensures on { OnOk result (MovesOn (piece_texts scope.old pieces.now) cursor.old more cursor.new) }
    ensures scope { scope.new ≡ scope.old }
{
    let len = len_at(alloc, scope, pieces, cursor.place)?;
    *cursor = if more > len - cursor.bytes {
        Cursor {
            place: cursor.place + 1,
            bytes: 0,
        }
    } else {
        Cursor {
            place: cursor.place,
            bytes: cursor.bytes + more,
        }
    };
    Ok(())
}

// Goes on behind what is the same, and says for how many bytes that is.
fn go_on(
    alloc: Global,
    scope: &mut Evaluation,
    a: &[ItemPiece],
    first: &mut Cursor,
    b: &[ItemPiece],
    second: &mut Cursor,
) -> Mem<Option<usize>>
    requires within { first.old.place < length a.now }
    requires within_other { second.old.place < length b.now }
    requires stands { StandsIn (piece_texts scope.old a.now) first.old }
    requires stands_other { StandsIn (piece_texts scope.old b.now) second.old }
    ensures same { IfOk result (λ same. AreSameFor same (item_left_behind scope.old a.now first.old) (item_left_behind scope.old b.now second.old)) }
    ensures first { IfOk result (λ same. IfSome same (λ more. MovesOn (piece_texts scope.old a.now) first.old more first.new)) }
    ensures second { IfOk result (λ same. IfSome same (λ more. MovesOn (piece_texts scope.old b.now) second.old more second.new)) }
    ensures scope { scope.new ≡ scope.old }
{
    let Some(more) = same_behind(alloc, scope, a, first, b, second)? else {
        return Ok(None);
    };
    advance(alloc, scope, a, first, more)?;
    advance(alloc, scope, b, second, more)?;
    Ok(Some(more))
}

// Whether two items that have as many bytes have the same text, by these. No text is put together.
fn have_same_bytes(
    alloc: Global,
    scope: &mut Evaluation,
    a: &[ItemPiece],
    b: &[ItemPiece],
    len: usize,
) -> Mem<bool>
    requires len { len ≡ length (with_commas (piece_texts scope.old a.now)) }
    requires other_len { len ≡ length (with_commas (piece_texts scope.old b.now)) }
    ensures same { IfOk result (λ same. same ≡ pointwise nat_eq (with_commas (piece_texts scope.old a.now)) (with_commas (piece_texts scope.old b.now))) }
    ensures scope { scope.new ≡ scope.old }
{
    let mut first = Cursor { place: 0, bytes: 0 };
    let mut second = Cursor { place: 0, bytes: 0 };
    let mut left = len;
    while left > 0 {
        let Some(more) = go_on(alloc, scope, a, &mut first, b, &mut second)? else {
            return Ok(false);
        };
        left -= more;
    }
    Ok(true)
}

/// Whether two items have the same text, by their pieces: they are the same, or the first that differ are as long, or all together are
/// not as long. Where none of this tells, their bytes are compared.
pub(crate) fn have_same_text(
    alloc: Global,
    scope: &mut Evaluation,
    a: &[ItemPiece],
    b: &[ItemPiece],
) -> Mem<bool>
    ensures same { IfOk result (λ same. same ≡ pointwise nat_eq (with_commas (piece_texts scope.old a.now)) (with_commas (piece_texts scope.old b.now))) }
    ensures scope { scope.new ≡ scope.old }
{
    let place = same_in_prefix(alloc, scope, a, b)?;
    if place == a.len() && place == b.len() {
        return Ok(true);
    }
    if is_as_long_at(alloc, scope, a, b, place)? {
        return Ok(false);
    }
    let len = len_with_commas(alloc, scope, a)?;
    let other_len = len_with_commas(alloc, scope, b)?;
    if len != other_len {
        return Ok(false);
    }
    have_same_bytes(alloc, scope, a, b, len)
}
