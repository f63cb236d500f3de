// Lists of kids, without one of them, and with one in another place.
ghost use Rattle.std.specs.Prelude.{◌≡◌, ◌≤◌, IfOk, IfSome, ◌<◌, length, map, position, nat_eq};
ghost use Rattle.std.specs.Cmp.Lexicographic.{pointwise};
ghost use Rattle.resource_tree.specs.Kids.{other_kids, place_among, kids_in_order};

use crate::kid_list::copied_with;
use resource_tree::Place;
use sp_base::{Mem, TextBuf, TextList};
use std::alloc::Global;

// The kids but for one.
fn other_kids<'a>(alloc: Global, kids: &[&'a TextBuf], name: &str) -> Mem<Vec<&'a TextBuf>>
    ensures { IfOk result (λ others. map (λ kid. kid.now) others.items ≡ other_kids name.now (map (λ kid. kid.now) kids.now)) }
{
    let mut others = Vec::new(alloc);
    for kid in kids {
        if name != kid.text() {
            others.push(*kid)?;
        }
    }
    Ok(others)
}

// The place of a sibling.
#[tactic(auto, using(crate::proofs::LentLemmas::here, crate::proofs::LentLemmas::nowhere))]
fn place_of(sibling: &TextBuf, others: &[&TextBuf]) -> Option<usize>
    ensures value { result ≡ position (pointwise nat_eq sibling.now) (map (λ kid. kid.now) others.now) }
    ensures within { IfSome result (λ n. n < length others.now) }
{
    for place in 0..others.len() {
        if sibling.text() == others[place].text() {
            return Some(place);
        }
    }
    None
}

// After how many of the others a kid is to stand.
fn place_among(place: &Place, others: &[&TextBuf]) -> Option<usize>
    ensures value { result ≡ place_among place.now (map (λ kid. kid.now) others.now) }
    ensures within { IfSome result (λ n. n ≤ length others.now) }
{
    match place {
        Place::First => Some(0),
        Place::Last => Some(others.len()),
        Place::Before(sibling) => place_of(sibling, others),
        Place::After(sibling) => match place_of(sibling, others) {
            Some(n) => Some(n + 1),
            None => None,
        },
        Place::At(n) => Some((*n).min(others.len() as u64) as usize),
    }
}

// The kids with one of them in another place.
pub(crate) fn kids_in_order(
    alloc: Global,
    kids: &[&TextBuf],
    name: &str,
    place: &Place,
) -> Mem<Option<TextList>>
    ensures { IfOk result (λ ordered. ordered ≡ kids_in_order name.now place.now (map (λ kid. kid.now) kids.now)) }
{
    let others = other_kids(alloc, kids, name)?;
    match place_among(place, &others) {
        Some(n) => Ok(Some(copied_with(alloc, &others, n, name)?)),
        None => Ok(None),
    }
}
