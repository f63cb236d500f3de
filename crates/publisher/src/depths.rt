//! The depth of a JSON answer, as its selectors name it.
ghost use Rattle.std.specs.Prelude.{◌≡◌};
ghost use Rattle.std.specs.Char.{is_ascii_digit};
ghost use Rattle.std.specs.List.{list_all};
ghost use Rattle.sp_base.specs.Typed.{are_digits};
ghost use Rattle.publisher.specs.Depths.{is_depth, levels_named, depth_named, depth_of};

use get_servlet::Depth;
use sp_base::TextList;

const MOST_DEPTH_DIGITS: usize = 9;

fn all_digits(word: &str) -> bool
    ensures { result ≡ list_all is_ascii_digit word.now }
{
    word.as_bytes().iter().all(|b| b.is_ascii_digit())
}

#[tactic(auto, using(crate::proofs::DepthLemmas::all_digits))]
fn are_digits(word: &str) -> bool
    ensures { result ≡ are_digits word.now }
{
    !word.is_empty() && all_digits(word)
}

// At most `MOST_DEPTH_DIGITS` digits, the first of several no zero.
fn is_depth(word: &str) -> bool
    ensures { result ≡ is_depth word.now }
{
    if !are_digits(word) || word.len() > MOST_DEPTH_DIGITS {
        return false;
    }
    word.len() == 1 || word.as_bytes()[0] != b'0'
}

// The number of levels that a selector spells.
fn levels_named(word: &str) -> Option<u32>
    ensures { result ≡ levels_named word.now }
{
    if is_depth(word) {
        word.parse().ok()
    } else {
        None
    }
}

fn depth_named(word: &str) -> Option<Depth>
    ensures { result ≡ depth_named word.now }
{
    if word == "infinity" {
        return Some(Depth::Infinity);
    }
    match levels_named(word) {
        Some(levels) => Some(Depth::Levels(levels)),
        None => None,
    }
}

/// The depth that the selectors of a request for JSON ask for, if they do.
pub(crate) fn depth_of(selectors: &TextList) -> Option<Depth>
    ensures { result ≡ depth_of selectors.now }
{
    match selectors.as_slice() {
        [] => Some(Depth::Levels(0)),
        [word] => depth_named(word.text()),
        _ => None,
    }
}
