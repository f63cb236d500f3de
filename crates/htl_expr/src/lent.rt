//! Values that lend what is stored.

ghost use Rattle.std.specs.Prelude.{◌≡◌, None, [], length};
ghost use Rattle.htl_expr.specs.Value as values;
ghost use Rattle.htl_expr.specs.Lent as spec;
ghost use Rattle.htl_expr.specs.Lent.{out_of_lent, listed_texts};

use crate::pieces::ItemPiece;
use sp_base::{LongList, TextBuf, TextList, TruthList};
use sqlite_items::Items;
use std::alloc::Global;

/// The value of an expression, with what the resource and the expression have lent.
#[derive(Drop)]
pub(crate) enum Lent<'a> {
    Nothing,
    Truth(bool),
    Long(i64),
    Text(&'a str),
    Texts(&'a TextList),
    Longs(&'a LongList),
    Truths(&'a TruthList),
    /// The values of the items of a list literal.
    Items(Items<Lent<'a>>),
}

/// A value, with the name of the property that it is, where it is one of the resource's, or else the pieces of all items that it has.
#[derive(Drop)]
pub(crate) struct Operand<'a> {
    pub(crate) value: Lent<'a>,
    pub(crate) property: Option<&'a TextBuf>,
    pub(crate) items: Items<Items<ItemPiece<'a>>>,
}

impl<'a> Operand<'a> {
    /// A value of which nothing more is said.
    pub(crate) fn of(alloc: Global, value: Lent<'a>) -> Operand<'a>
        ensures value { result.value ≡ value.entry }
        ensures property { result.property ≡ None }
        ensures items { result.items ≡ [] }
    {
        Operand {
            value,
            property: None,
            items: Items::new(alloc),
        }
    }
}

/// Nothing, false, 0, the empty text and the empty list are false, and all else is true.
pub(crate) fn is_true(value: &Lent) -> bool
    ensures { result ≡ values.is_true (out_of_lent value.now) }
{
    match value {
        Lent::Nothing => false,
        Lent::Truth(truth) => *truth,
        Lent::Long(number) => *number != 0,
        Lent::Text(text) => !text.is_empty(),
        Lent::Texts(texts) => !texts.is_empty(),
        Lent::Longs(numbers) => !numbers.is_empty(),
        Lent::Truths(truths) => !truths.is_empty(),
        Lent::Items(items) => items.len() != 0,
    }
}

/// Whether a value is a list.
#[tactic(auto, using(crate::proofs::Chains::items_out))]
pub(crate) fn is_list(value: &Lent) -> bool
    ensures { result ≡ spec.is_list (out_of_lent value.now) }
{
    match value {
        Lent::Nothing | Lent::Truth(_) | Lent::Long(_) | Lent::Text(_) => false,
        Lent::Texts(_) | Lent::Longs(_) | Lent::Truths(_) | Lent::Items(_) => true,
    }
}

/// How many items a list has.
#[tactic(auto, using(crate::proofs::Chains::items_out))]
pub(crate) fn item_count(list: &Lent) -> usize
    ensures { result ≡ length (listed_texts (out_of_lent list.now)) }
{
    match list {
        Lent::Texts(texts) => texts.len(),
        Lent::Longs(numbers) => numbers.len(),
        Lent::Truths(truths) => truths.len(),
        Lent::Items(items) => items.len(),
        _ => 0,
    }
}
