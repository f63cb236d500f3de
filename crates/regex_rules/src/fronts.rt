//! How far into a text a beginning of it is in a pattern's language. The text is walked once, as for a match, as far
//! as it reaches some place.
ghost use Rattle.std.specs.Prelude.{◌≡◌, ◌&&◌, IfOk, Some, cond, nat_le};
ghost use Rattle.regex_rules.specs.Trees.{tree_of, places_of};
ghost use Rattle.regex_rules.specs.Fronts.{IsLastFront, may_cut};

use crate::PatternPlace;
use crate::chars::first_char;
use crate::matching::Sets;
use sp_base::Mem;
use std::alloc::Global;

/// The last place of a text, at another or after it, up to which the text is in the language of the pattern with these places, of
/// the places at which it may be cut.
pub(crate) fn last_front(
    alloc: Global,
    places: &[PatternPlace],
    text: &str,
    from: usize,
) -> Mem<Option<usize>>
    requires { places_of (tree_of places.now) ≡ places.now }
    ensures { IfOk result (IsLastFront (tree_of places.now) text.now from) }
{
    let mut sets = Sets::new(alloc, places.len())?;
    let mut answer = sets.take_nothing(places)?;
    let mut enters = true;
    let mut rest = text;
    let mut last = None;
    loop {
        let at = text.len() - rest.len();
        last = later(last, answer, from, at, rest);
        let Some((c, left)) = first_char(rest) else {
            return Ok(last);
        };
        if !enters && sets.are_off() {
            return Ok(last);
        }
        answer = sets.take(c, places, enters)?;
        enters = false;
        rest = left;
    }
}

// The place, where it isn't before another, the text up to it is in the language, and it may be cut there; else the last one before it.
fn later(last: Option<usize>, answer: bool, from: usize, at: usize, rest: &str) -> Option<usize>
    ensures { result ≡ cond ((answer && nat_le from at) && may_cut rest.now) (Some at) last }
{
    if (answer && from <= at) && may_cut(rest) {
        Some(at)
    } else {
        last
    }
}

// Whether a text is empty, or begins with a dot or a slash.
fn may_cut(rest: &str) -> bool
    ensures { result ≡ may_cut rest.now }
{
    match rest.as_bytes().first() {
        Some(byte) => *byte == b'.' || *byte == b'/',
        None => true,
    }
}
