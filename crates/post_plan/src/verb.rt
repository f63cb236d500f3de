//! What a POST does.
ghost use Rattle.std.specs.Prelude.{◌≡◌};
ghost use Rattle.post_plan.specs.Plan as spec;

use crate::words::first_word;
use sp_base::TextBuf;

/// The word of `:operation`; a node is modified where there is none.
#[derive(Clone, Copy, PartialEq, Eq, Debug, Drop)]
pub enum Verb {
    Modify,
    Delete,
    Copy,
    Move,
    Nop,
}

fn verb_named(word: &str) -> Option<Verb>
    ensures { result ≡ spec.verb_named word.now }
{
    if word == "delete" {
        Some(Verb::Delete)
    } else if word == "copy" {
        Some(Verb::Copy)
    } else if word == "move" {
        Some(Verb::Move)
    } else if word == "nop" {
        Some(Verb::Nop)
    } else {
        None
    }
}

/// What the parameters ask for, where that is known.
pub fn verb_of(pairs: &[(TextBuf, TextBuf)]) -> Option<Verb>
    ensures { result ≡ spec.verb_of pairs.now }
{
    match first_word(":operation", pairs) {
        Some(word) => verb_named(word),
        None => Some(Verb::Modify),
    }
}

/// Whether a node is copied or moved.
pub fn carries_node(verb: Option<Verb>) -> bool
    ensures { result ≡ spec.carries_node verb }
{
    match verb {
        Some(Verb::Copy) => true,
        Some(Verb::Move) => true,
        _ => false,
    }
}

/// Whether a node is made or modified.
pub fn is_modify(verb: Option<Verb>) -> bool
    ensures { result ≡ spec.is_modify verb }
{
    match verb {
        Some(Verb::Modify) => true,
        _ => false,
    }
}
