//! A list as the texts of its items.

ghost use Rattle.std.specs.Prelude.{◌≡◌, ◌≤◌, ◌<◌, [], IfOk, IfErr, IfSome, length, get_or, map, slice_get};
ghost use Rattle.htl_expr.specs.Lent.{out_of_lent, listed_texts, plain_item};
ghost use Rattle.htl_expr.specs.Value.{list_in};
ghost use Rattle.htl_expr.specs.Writing.{WriteFailsAsTooLongIfMemory};

use crate::lent::{Lent, is_list, item_count};
use crate::lists::{long_text, truth_text};
use crate::out::item_text_within;
use crate::room::WriteFault;
use sp_base::TextBuf;
use std::alloc::Global;
use std::marker::Model;

// A text that is lent, or one that was made.
#[derive(Drop)]
enum HeldText<'v> {
    Lent(&'v str),
    Made(TextBuf),
}

/// The text of an item. Contracts see the text.
#[derive(Drop)]
pub struct ItemText<'v> {
    held: HeldText<'v>,
}

impl<'v> Model for ItemText<'v> {
    ghost use Rattle.std.specs.Prelude.{List, ℕ};
    ghost use Rattle.htl_expr.specs.Listed.{held_text};

    ghost Value = { List ℕ };

    ghost view = { λ t. held_text t.held };
}

impl<'v> ItemText<'v> {
    pub fn text(&self) -> &str
        ensures { result.now ≡ self.now }
    {
        match &self.held {
            HeldText::Lent(text) => text,
            HeldText::Made(text) => text.text(),
        }
    }
}

fn lent_text(text: &str) -> ItemText<'_>
    ensures { result ≡ text.now }
{
    ItemText {
        held: HeldText::Lent(text),
    }
}

fn made_text<'v>(text: TextBuf) -> ItemText<'v>
    ensures { result ≡ text }
{
    ItemText {
        held: HeldText::Made(text),
    }
}

// A text that is there, where it has at most so many bytes.
fn within(text: ItemText<'_>, most: usize) -> Result<ItemText<'_>, WriteFault>
    ensures ok { IfOk result (λ it. (it ≡ text.entry) × (length it ≤ most)) }
    ensures err { IfErr result (WriteFailsAsTooLongIfMemory most text.entry) }
{
    if text.text().len() > most {
        return Err(WriteFault::TooLong);
    }
    Ok(text)
}

// The text of a value as an item, where it has at most so many bytes. That of a text is lent.
fn text_of<'v>(alloc: Global, item: &Lent<'v>, most: usize) -> Result<ItemText<'v>, WriteFault>
    ensures ok { IfOk result (λ text. (text ≡ plain_item item.now) × (length text ≤ most)) }
    ensures err { IfErr result (WriteFailsAsTooLongIfMemory most (plain_item item.now)) }
{
    match item {
        Lent::Text(text) => within(lent_text(text), most),
        _ => Ok(made_text(item_text_within(alloc, item, most)?)),
    }
}

/// The list that an expression gave, with what its items have lent. Contracts see the texts of the items.
#[derive(Drop)]
pub struct Listed<'v> {
    list: Lent<'v>,
}

impl<'v> Model for Listed<'v> {
    ghost use Rattle.std.specs.Prelude.{List, ℕ};
    ghost use Rattle.htl_expr.specs.Lent.{out_of_lent, listed_texts};
    ghost use Rattle.sp_base.specs.Texts.{Text};

    ghost Value = { List Text };

    ghost view = { λ l. listed_texts (out_of_lent l.list) };
}

/// The items of a value that is a list.
pub(crate) fn items_of(value: Lent<'_>) -> Option<Listed<'_>>
    ensures { result ≡ list_in (out_of_lent value.entry) }
{
    if is_list(&value) {
        Some(Listed { list: value })
    } else {
        None
    }
}

// The text of the item at a place of a list literal.
#[tactic(auto, using(crate::proofs::SameItems::get_or_of_map))]
fn literal_item<'v>(
    alloc: Global,
    items: &[Lent<'v>],
    place: usize,
    most: usize,
) -> Result<ItemText<'v>, WriteFault>
    requires { place < length items.now }
    ensures ok { IfOk result (λ text. (text ≡ get_or (map plain_item items.now) place []) × (length text ≤ most)) }
    ensures err { IfErr result (WriteFailsAsTooLongIfMemory most (get_or (map plain_item items.now) place [])) }
{
    text_of(alloc, &items[place], most)
}

// The text of the item at a place.
#[tactic(auto, using(crate::proofs::Chains::items_out, crate::proofs::SameItems::get_or_of_map))]
fn text_at<'v>(
    alloc: Global,
    list: &Lent<'v>,
    place: usize,
    most: usize,
) -> Result<ItemText<'v>, WriteFault>
    requires { place < length (listed_texts (out_of_lent list.now)) }
    ensures ok { IfOk result (λ text. (text ≡ get_or (listed_texts (out_of_lent list.now)) place []) × (length text ≤ most)) }
    ensures err { IfErr result (WriteFailsAsTooLongIfMemory most (get_or (listed_texts (out_of_lent list.now)) place [])) }
{
    match list {
        Lent::Texts(texts) => within(lent_text(texts.as_slice()[place].text()), most),
        Lent::Longs(numbers) => within(
            made_text(long_text(alloc, numbers.as_slice()[place])?),
            most,
        ),
        Lent::Truths(truths) => within(lent_text(truth_text(truths.as_slice()[place])), most),
        Lent::Items(items) => literal_item(alloc, items.as_slice(), place, most),
        _ => within(lent_text(""), most),
    }
}

impl<'v> Listed<'v> {
    /// How many items there are.
    pub fn len(&self) -> usize
        ensures { result ≡ length self.now }
    {
        item_count(&self.list)
    }

    /// The text of the item at a place, counted from 0, where it has at most `most` bytes. It is lent where the item is a text or a truth, and
    /// else made, but not beyond them.
    #[tactic(auto, using(crate::proofs::Items::item_there, crate::proofs::Items::no_item))]
    pub fn item(
        &self,
        alloc: Global,
        place: usize,
        most: usize,
    ) -> Result<Option<ItemText<'v>>, WriteFault>
        ensures ok { IfOk result (λ item. item ≡ slice_get self.now place) }
        ensures within { IfOk result (λ item. IfSome item (λ text. length text ≤ most)) }
        ensures err { IfErr result (WriteFailsAsTooLongIfMemory most (get_or self.now place [])) }
    {
        if place >= item_count(&self.list) {
            return Ok(None);
        }
        Ok(Some(text_at(alloc, &self.list, place, most)?))
    }
}
