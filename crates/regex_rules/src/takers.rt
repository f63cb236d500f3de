//! Which characters of a pattern take a character of a text.
ghost use Rattle.std.specs.Prelude.{◌≡◌, ◌≤◌, ◌<◌, ℕ, [], ◌∷◌, IfOk, slice_index, length};
ghost use Rattle.regex_rules.specs.Languages.{is_one};
ghost use Rattle.regex_rules.specs.Linkings as spec;

use crate::{OneChar, PatternPlace};
use sp_base::Mem;
use std::alloc::Global;

/// How many characters, from the first of all on, have a set of those of the pattern that take them.
const LISTED: u8 = 128;

// The characters of the pattern passed that take one, and the bit of the next.
#[derive(Clone, Copy, Drop)]
pub(crate) struct Takers {
    pub(crate) set: u64,
    pub(crate) bit: u64,
}

impl Takers {
    fn pass_one(self, c: char, one: &OneChar) -> Takers
        ensures { result ≡ spec.one_stand (is_one one.now c) self }
    {
        Takers {
            set: if one.is_one(c) {
                self.set | self.bit
            } else {
                self.set
            },
            bit: self.bit.wrapping_mul(2),
        }
    }

    fn pass(self, c: char, place: &PatternPlace) -> Takers
        ensures { result ≡ spec.stand c place.now self }
    {
        match place {
            PatternPlace::One(one, _) => self.pass_one(c, one),
            _ => self,
        }
    }
}

/// The characters of the pattern with these places that take this one.
pub(crate) fn takers_of(c: char, places: &[PatternPlace]) -> u64
    ensures { result ≡ spec.takers_of c places.now }
{
    let mut found = Takers { set: 0, bit: 1 };
    let mut at = 0;
    while at < places.len() {
        found = found.pass(c, &places[at]);
        at += 1;
    }
    found.set
}

/// The same of each of the first characters of all.
pub(crate) fn listed(alloc: Global, places: &[PatternPlace]) -> Mem<Vec<u64>>
    ensures { IfOk result (λ sets. (c : ℕ) → c < length sets.items → slice_index sets.items c ≡ spec.takers_of c places.now) }
{
    let mut sets = Vec::with_capacity(alloc, LISTED as usize)?;
    for c in 0..LISTED {
        sets.push(takers_of(c as char, places))?;
    }
    Ok(sets)
}

// How many characters a place has: one or none.
fn count_one(place: &PatternPlace) -> usize
    ensures value { result ≡ spec.ones (place.now ∷ []) }
    ensures small { result ≤ 1 }
{
    match place {
        PatternPlace::One(_, _) => 1,
        _ => 0,
    }
}

/// How many characters the pattern with these places has.
pub(crate) fn count(places: &[PatternPlace]) -> usize
    ensures { result ≡ spec.ones places.now }
{
    let mut count = 0;
    let mut at = 0;
    while at < places.len() {
        count += count_one(&places[at]);
        at += 1;
    }
    count
}
