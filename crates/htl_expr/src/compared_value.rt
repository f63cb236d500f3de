//! What two properties are told apart by, in an order.

ghost use Rattle.std.specs.Prelude.{◌≡◌, ◌<◌, ◌∷◌, IfOk, [], Some, length, get_or, option_copied, refl};
ghost use Rattle.std.specs.Cmp.{partial_equiv_from_equiv, partial_order_from_agreeing_total};
ghost use Rattle.std.specs.Cmp.Lexicographic.{slice_cmp};
ghost use Rattle.std.specs.Fmt.{signed_decimal};
ghost use Rattle.std.specs.Ordering.{nat_cmp, eq_by_cmp};
ghost use Rattle.std.proofs.lemmas.Cmp.{eq_by_cmp_equiv};
ghost use Rattle.htl_expr.specs.ComparedValue.{texts_of, by_texts, by_texts_total};
ghost use Rattle.htl_expr.specs.Lent.{listed_texts, plain_item};
ghost use Rattle.htl_expr.specs.Value.{out_or_nothing};

use crate::lent::Lent;
use crate::lists::truth_text;
use crate::out::item_text;
use itoa::Buffer;
use sp_base::{LongList, Mem, TextBuf, TextList, TruthList, Value};
use std::alloc::Global;
use std::cmp::Ordering;
use std::marker::Model;

/// A text, or the texts of a list. What the resource has is lent.
#[derive(Drop)]
pub(crate) enum Texts<'a> {
    Nothing,
    One(&'a str),
    /// The text of a list as an item of a list literal.
    Made(TextBuf),
    Stored(&'a TextList),
    Longs(&'a LongList),
    Truths(&'a TruthList),
}

/// Contracts see the texts. They are ordered by how many they are, and then as lists, with texts by their bytes.
#[derive(Drop)]
pub(crate) struct ComparedValue<'a> {
    texts: Texts<'a>,
}

impl<'a> Model for ComparedValue<'a> {
    ghost use Rattle.std.specs.Prelude.{List};
    ghost use Rattle.htl_expr.specs.ComparedValue.{texts_of};
    ghost use Rattle.sp_base.specs.Texts.{Text};

    ghost Value = { List Text };

    ghost view = { λ c. texts_of c.texts };
}

fn text_count(texts: &Texts) -> usize
    ensures { result ≡ length (texts_of texts.now) }
{
    match texts {
        Texts::Nothing => 0,
        Texts::One(_) | Texts::Made(_) => 1,
        Texts::Stored(list) => list.len(),
        Texts::Longs(list) => list.len(),
        Texts::Truths(list) => list.len(),
    }
}

// The text at a place. That of a number is written into the buffer.
#[tactic(auto, using(crate::proofs::Places::only_place, crate::proofs::SameItems::get_or_of_map))]
fn text_at<'b>(texts: &'b Texts, place: usize, buffer: &'b mut Buffer) -> &'b str
    requires { place < length (texts_of texts.now) }
    ensures { result.now ≡ get_or (texts_of texts.now) place [] }
{
    match texts {
        Texts::Nothing => "",
        Texts::One(text) => text,
        Texts::Made(text) => text.text(),
        Texts::Stored(list) => list.as_slice()[place].text(),
        Texts::Longs(list) => buffer.format(list.as_slice()[place]),
        Texts::Truths(list) => truth_text(list.as_slice()[place]),
    }
}

// Two numbers are the same where their decimals are, which are made of two that differ alone.
#[tactic(auto, using(crate::proofs::Places::texts_alike))]
fn order_of_longs(a: i64, b: i64) -> Ordering
    ensures { result ≡ slice_cmp nat_cmp (signed_decimal a) (signed_decimal b) }
{
    if a == b {
        return Ordering::Equal;
    }
    let mut buffer = Buffer::new();
    let mut other = Buffer::new();
    buffer.format(a).cmp(other.format(b))
}

// The order of the texts at a place, of which one may be that of a number.
fn order_of_texts(a: &Texts, b: &Texts, place: usize) -> Ordering
    requires within { place < length (texts_of a.now) }
    requires within_other { place < length (texts_of b.now) }
    ensures { result ≡ slice_cmp nat_cmp (get_or (texts_of a.now) place []) (get_or (texts_of b.now) place []) }
{
    let mut buffer = Buffer::new();
    let mut other = Buffer::new();
    text_at(a, place, &mut buffer).cmp(text_at(b, place, &mut other))
}

// The order of the texts at a place.
#[tactic(auto, using(crate::proofs::SameItems::get_or_of_map))]
fn order_at(a: &Texts, b: &Texts, place: usize) -> Ordering
    requires within { place < length (texts_of a.now) }
    requires within_other { place < length (texts_of b.now) }
    ensures { result ≡ slice_cmp nat_cmp (get_or (texts_of a.now) place []) (get_or (texts_of b.now) place []) }
{
    match (a, b) {
        (Texts::Stored(a), Texts::Stored(b)) => {
            a.as_slice()[place].text().cmp(b.as_slice()[place].text())
        }
        (Texts::Longs(a), Texts::Longs(b)) => {
            order_of_longs(a.as_slice()[place], b.as_slice()[place])
        }
        (Texts::Truths(a), Texts::Truths(b)) => {
            truth_text(a.as_slice()[place]).cmp(truth_text(b.as_slice()[place]))
        }
        _ => order_of_texts(a, b, place),
    }
}

// The order of as many texts, by the first that differs.
fn order_of_as_many(a: &Texts, b: &Texts) -> Ordering
    requires { length (texts_of a.now) ≡ length (texts_of b.now) }
    ensures { result ≡ slice_cmp (slice_cmp nat_cmp) (texts_of a.now) (texts_of b.now) }
{
    let texts = text_count(a);
    for place in 0..texts {
        let order = order_at(a, b, place);
        if order.is_ne() {
            return order;
        }
    }
    Ordering::Equal
}

// Lists that differ in their lengths are told apart without a look at their texts.
#[tactic(auto, using(crate::proofs::Places::as_many, crate::proofs::Places::unlike))]
fn order(a: &Texts, b: &Texts) -> Ordering
    ensures { result ≡ by_texts (texts_of a.now) (texts_of b.now) }
{
    let order = text_count(a).cmp(&text_count(b));
    if order.is_ne() {
        return order;
    }
    order_of_as_many(a, b)
}

impl<'a> PartialEq for ComparedValue<'a> {
    ghost eq = { eq_by_cmp by_texts };

    ghost laws = { partial_equiv_from_equiv (eq_by_cmp_equiv by_texts_total) };

    fn eq(&self, other: &ComparedValue<'a>) -> bool {
        self.cmp(other).is_eq()
    }
}

impl<'a> Eq for ComparedValue<'a> {
    ghost laws = { eq_by_cmp_equiv by_texts_total };
}

impl<'a> PartialOrd for ComparedValue<'a> {
    ghost partial_cmp = { λ x y. Some (by_texts x y) };

    ghost laws = { partial_order_from_agreeing_total by_texts by_texts_total (λ x y. refl) (λ x y. refl) };

    fn partial_cmp(&self, other: &ComparedValue<'a>) -> Option<Ordering> {
        Some(self.cmp(other))
    }
}

impl<'a> Ord for ComparedValue<'a> {
    ghost cmp = { by_texts };

    ghost total = { by_texts_total };

    ghost matches_partial_cmp = { λ x y. refl };

    ghost matches_eq = { λ x y. refl };

    fn cmp(&self, other: &ComparedValue<'a>) -> Ordering {
        order(&self.texts, &other.texts)
    }
}

impl<'a> ComparedValue<'a> {
    /// The items of a stored list.
    pub(crate) fn of_list(value: Option<&'a Value>) -> ComparedValue<'a>
        ensures { result ≡ listed_texts (out_or_nothing (option_copied value.entry)) }
    {
        let texts = match value {
            Some(Value::Texts(list)) => Texts::Stored(list),
            Some(Value::Longs(list)) => Texts::Longs(list),
            Some(Value::Truths(list)) => Texts::Truths(list),
            _ => Texts::Nothing,
        };
        ComparedValue { texts }
    }

    /// The text of a value as an item of a list literal. That of a list is made.
    pub(crate) fn of_item(alloc: Global, value: Lent<'a>) -> Mem<ComparedValue<'a>>
        ensures { IfOk result (λ c. c ≡ plain_item value.entry ∷ []) }
    {
        let texts = match value {
            Lent::Text(text) => Texts::One(text),
            _ => Texts::Made(item_text(alloc, &value)?),
        };
        Ok(ComparedValue { texts })
    }
}
