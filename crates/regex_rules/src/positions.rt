//! A match of a pattern with at most 64 characters: the text is walked once, and between two of its characters it is known in one number
//! at which of the pattern's characters the text so far may end.
ghost use Rattle.std.specs.Prelude.{◌≡◌, ◌==◌, ◌↔◌, IsTrue, IfOk, IfSome, not, bit_and};
ghost use Rattle.std.specs.Str.{chars};
ghost use Rattle.regex_rules.specs.Trees.{tree_of, places_of};
ghost use Rattle.regex_rules.specs.Languages.{InLanguage};
ghost use Rattle.regex_rules.specs.Linkings as spec;

use crate::PatternPlace;
use crate::chars::first_char;
use crate::follow_table::FollowTable;
use crate::linking::{Linking, Piece};
use crate::takers::{count, listed, takers_of};
use sp_base::Mem;
use std::alloc::Global;

/// The most characters of a pattern that have bits in a set.
const MOST: usize = 64;

/// The characters of a pattern in sets, which have a bit for each of them, in its order: with which its texts may begin and end, which may
/// come after each, and which take each of the first characters of all.
#[derive(Drop)]
pub(crate) struct Positions {
    pub(crate) whole: Piece,
    pub(crate) follow: FollowTable,
    pub(crate) listed: Vec<u64>,
}

impl Positions {
    /// The characters of the pattern with these places, where they aren't more than 64.
    pub(crate) fn of(alloc: Global, places: &[PatternPlace]) -> Mem<Option<Positions>>
        ensures { IfOk result (λ table. IfSome table (spec.IsTable places.now)) }
    {
        let number = count(places);
        if number > MOST {
            return Ok(None);
        }
        let mut linking = Linking::new(alloc, number)?;
        linking.go(places)?;
        let listed = listed(alloc, places)?;
        Ok(Some(Positions {
            whole: linking.whole(),
            follow: linking.into_follow(),
            listed,
        }))
    }

    // Which characters take this one.
    fn takers(&self, c: char, places: &[PatternPlace]) -> u64
        requires { spec.IsTable places.now self.now }
        ensures { result ≡ spec.takers_of c places.now }
    {
        match self.listed.get(c as usize) {
            Some(set) => *set,
            None => takers_of(c, places),
        }
    }

    /// Whether the whole text is in the language of the pattern, which has these places.
    pub(crate) fn is_match(&self, places: &[PatternPlace], text: &str) -> bool
        requires places { places_of (tree_of places.now) ≡ places.now }
        requires table { spec.IsTable places.now self.now }
        ensures { IsTrue result ↔ InLanguage (tree_of places.now) (chars text.now) }
    {
        let Some((first, later)) = first_char(text) else {
            return self.whole.lacks;
        };
        let mut ends = self.whole.first & self.takers(first, places);
        let mut rest = later;
        while let Some((c, later)) = first_char(rest) {
            if ends == 0 {
                return false;
            }
            ends = self.follow.after(ends) & self.takers(c, places);
            rest = later;
        }
        meet(ends, self.whole.last)
    }
}

// Whether two sets have a member in common.
fn meet(one: u64, other: u64) -> bool
    ensures { result ≡ not (bit_and one other == 0) }
{
    one & other != 0
}
