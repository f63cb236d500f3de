//! The place that `:order` names.
ghost use Rattle.std.specs.Prelude.{◌≡◌, IfOk};
ghost use Rattle.std.specs.Char.{is_ascii_digit};
ghost use Rattle.std.specs.List.{list_all};
ghost use Rattle.post_plan.specs.Plan as spec;

use resource_tree::Place;
use sp_base::{Mem, TextBuf, seg_ok};
use std::alloc::Global;

fn all_digits(word: &str) -> bool
    ensures { result ≡ list_all is_ascii_digit word.now }
{
    word.as_bytes().iter().all(|b| b.is_ascii_digit())
}

// Decimal digits without a leading zero.
#[tactic(auto, using(crate::proofs::NumberLemmas::all_digits))]
fn is_numeral(word: &str) -> bool
    ensures { result ≡ spec.is_numeral word.now }
{
    let bytes = word.as_bytes();
    all_digits(word) && (!bytes.is_empty() && (bytes.len() == 1 || !bytes.starts_with(b"0")))
}

fn number_of(word: &str) -> Option<u64>
    ensures { result ≡ spec.place_number word.now }
{
    if is_numeral(word) {
        word.parse().ok()
    } else {
        None
    }
}

fn place_at(number: Option<u64>) -> Option<Place>
    ensures { result ≡ spec.place_at number }
{
    match number {
        Some(n) => Some(Place::At(n)),
        None => None,
    }
}

fn place_before(alloc: Global, name: &str) -> Mem<Option<Place>>
    ensures { IfOk result (λ o. o ≡ spec.place_before name.now) }
{
    if seg_ok(name) {
        Ok(Some(Place::Before(TextBuf::of(alloc, name)?)))
    } else {
        Ok(None)
    }
}

fn place_after(alloc: Global, name: &str) -> Mem<Option<Place>>
    ensures { IfOk result (λ o. o ≡ spec.place_after name.now) }
{
    if seg_ok(name) {
        Ok(Some(Place::After(TextBuf::of(alloc, name)?)))
    } else {
        Ok(None)
    }
}

/// The place that a word names.
pub fn place_named(alloc: Global, word: &str) -> Mem<Option<Place>>
    ensures { IfOk result (λ o. o ≡ spec.place_named word.now) }
{
    if word == "first" {
        return Ok(Some(Place::First));
    }
    if word == "last" {
        return Ok(Some(Place::Last));
    }
    if let Some(name) = word.strip_prefix("before ") {
        return place_before(alloc, name);
    }
    if let Some(name) = word.strip_prefix("after ") {
        return place_after(alloc, name);
    }
    Ok(place_at(number_of(word)))
}
