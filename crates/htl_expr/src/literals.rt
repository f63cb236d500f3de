//! Comparisons of list literals. Items are compared by their pieces.

ghost use Rattle.std.specs.Prelude.{◌≡◌, ◌<◌, ◌++◌, IfOk, [], nat_eq, length, get_or, codes};
ghost use Rattle.std.specs.Cmp.Lexicographic.{pointwise};
ghost use Rattle.htl_expr.specs.Lent.{out_of_lent, listed_texts, IsOperand, listed_item};
ghost use Rattle.htl_expr.specs.Pieces.{item_piece_text, piece_texts, with_commas};
ghost use Rattle.htl_expr.specs.Value as spec;

use crate::evaluation::Evaluation;
use crate::lent::{Operand, item_count};
use crate::lists::truth_text;
use crate::pieces::{ItemPiece, have_same_text};
use crate::scope::Scope;
use sp_base::{Mem, TextBuf, Value};
use sqlite_items::Items;
use std::alloc::Global;

// The item at a place of a list that is stored, as a piece.
#[tactic(auto, using(crate::proofs::SameItems::get_or_of_map))]
fn stored_item<'a>(scope: &Scope<'a>, name: &TextBuf, place: usize) -> ItemPiece<'a>
    requires { place < length (listed_texts (spec.property scope.now name.now)) }
    ensures { item_piece_text scope.now result ≡ get_or (listed_texts (spec.property scope.now name.now)) place [] }
{
    match scope.props.get(name.text()) {
        Some(Value::Texts(texts)) => ItemPiece::Text(texts.as_slice()[place].text()),
        Some(Value::Longs(numbers)) => ItemPiece::Long(numbers.as_slice()[place]),
        Some(Value::Truths(truths)) => ItemPiece::Text(truth_text(truths.as_slice()[place])),
        _ => ItemPiece::Text(""),
    }
}

// The item at a place of a property, as a piece. The only item of a list has the text that the list has as an item.
#[tactic(auto, using(crate::proofs::Items::only_item))]
fn property_piece<'v, 'a: 'v>(
    scope: &Scope<'a>,
    name: &'v TextBuf,
    items: usize,
    place: usize,
) -> ItemPiece<'v>
    requires items { items ≡ length (listed_texts (spec.property scope.now name.now)) }
    requires within { place < items }
    ensures { item_piece_text scope.now result ≡ get_or (listed_texts (spec.property scope.now name.now)) place [] }
{
    if items == 1 {
        ItemPiece::Property(name)
    } else {
        stored_item(scope, name, place)
    }
}

// The pieces of the item at a place.
fn pieces_at<'a, 'b>(items: &'b Items<Items<ItemPiece<'a>>>, place: usize) -> &'b [ItemPiece<'a>]
    requires { place < length items.now }
    ensures { result.now ≡ get_or items.now place [] }
{
    items.as_slice()[place].as_slice()
}

// Whether a list has at a place an item with the text of these pieces.
fn has_pieces_at<'v, 'a: 'v>(
    alloc: Global,
    scope: &mut Evaluation<'a>,
    list: &Operand<'v>,
    place: usize,
    pieces: &[ItemPiece<'v>],
) -> Mem<bool>
    requires list { IsOperand scope.old list.now }
    requires within { place < length (listed_texts (out_of_lent list.now.value)) }
    ensures same { IfOk result (λ same. same ≡ pointwise nat_eq (codes "," ++ listed_item list.now.value place) (with_commas (piece_texts scope.old pieces.now))) }
    ensures scope { scope.new ≡ scope.old }
{
    match list.property {
        Some(name) => {
            let items = item_count(&list.value);
            let piece = property_piece(scope.scope(), name, items, place);
            have_same_text(alloc, scope, &[piece], pieces)
        }
        None => have_same_text(alloc, scope, pieces_at(&list.items, place), pieces),
    }
}

// Whether two lists have the same item at a place.
fn has_same_item_at<'v, 'a: 'v>(
    alloc: Global,
    scope: &mut Evaluation<'a>,
    a: &Operand<'v>,
    b: &Operand<'v>,
    place: usize,
) -> Mem<bool>
    requires first { IsOperand scope.old a.now }
    requires second { IsOperand scope.old b.now }
    requires within { place < length (listed_texts (out_of_lent a.now.value)) }
    requires within_other { place < length (listed_texts (out_of_lent b.now.value)) }
    ensures same { IfOk result (λ same. same ≡ pointwise nat_eq (listed_item a.now.value place) (listed_item b.now.value place)) }
    ensures scope { scope.new ≡ scope.old }
{
    match b.property {
        Some(name) => {
            let items = item_count(&b.value);
            let piece = property_piece(scope.scope(), name, items, place);
            has_pieces_at(alloc, scope, a, place, &[piece])
        }
        None => has_pieces_at(alloc, scope, a, place, pieces_at(&b.items, place)),
    }
}

/// Whether two lists have the same items, of which each or one is a list literal.
#[tactic(auto, using(crate::proofs::SameItems::unequal_lengths))]
pub(crate) fn has_same_texts<'v, 'a: 'v>(
    alloc: Global,
    scope: &mut Evaluation<'a>,
    a: &Operand<'v>,
    b: &Operand<'v>,
) -> Mem<bool>
    requires first { IsOperand scope.old a.now }
    requires second { IsOperand scope.old b.now }
    ensures same { IfOk result (λ same. same ≡ pointwise (pointwise nat_eq) (listed_texts (out_of_lent a.now.value)) (listed_texts (out_of_lent b.now.value))) }
    ensures scope { scope.new ≡ scope.old }
{
    let items = item_count(&a.value);
    if items != item_count(&b.value) {
        return Ok(false);
    }
    for place in 0..items {
        if !has_same_item_at(alloc, scope, a, b, place)? {
            return Ok(false);
        }
    }
    Ok(true)
}
