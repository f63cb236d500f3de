//! A pattern, and which texts it matches.
ghost use Rattle.std.specs.Prelude.{◌≡◌, ◌≢◌, ◌↔◌, IsTrue, IfOk, IfErr, IfSome, Ok, Err};
ghost use Rattle.std.specs.Str.{chars};
ghost use Rattle.regex_rules.specs.Trees.{PatternTree, tree_of, places_of};
ghost use Rattle.regex_rules.specs.Fronts.{IsLastFront};
ghost use Rattle.regex_rules.specs.Languages.{InLanguage, in_language};
ghost use Rattle.regex_rules.specs.Spelling.{IsPattern};
ghost use Rattle.regex_rules.specs.Faults.{IsFault};
ghost use Rattle.regex_rules.specs.Linkings.{IsTable};
ghost use Rattle.regex_rules.specs.Reading.{pattern_of};

use crate::fronts::last_front;
use crate::matching::is_match;
use crate::positions::Positions;
use crate::read::read_places;
use crate::{PatternFault, PatternPlace};
use sp_base::Mem;
use std::alloc::Global;
use std::marker::Model;

/// A regular expression for whole texts. Contracts see its places, and speak of their tree.
#[derive(Drop)]
pub struct Pattern {
    pub(crate) places: Vec<PatternPlace>,
    // Where the pattern has at most 64 characters.
    positions: Option<Positions>,
}

impl Model for Pattern {
    ghost use Rattle.std.specs.Prelude.{◌≡◌, List, IfSome};
    ghost use Rattle.regex_rules.specs.Trees.{tree_of, places_of};
    ghost use Rattle.regex_rules.specs.Linkings.{IsTable};
    ghost use Rattle.regex_rules.specs.declared.place.PatternPlace.{PatternPlace};

    ghost Value = { List PatternPlace };

    ghost view = { λ p. p.places.items };

    ghost invariant = { λ p. (places_of (tree_of p.places.items) ≡ p.places.items) × IfSome p.positions (IsTable p.places.items) };
}

// Whether a text is in the language of the pattern with these places, by its sets of characters where it has them.
fn is_matched(
    alloc: Global,
    places: &[PatternPlace],
    positions: &Option<Positions>,
    text: &str,
) -> Mem<bool>
    requires places { places_of (tree_of places.now) ≡ places.now }
    requires table { IfSome positions.now (IsTable places.now) }
    ensures { IfOk result (λ answer. IsTrue answer ↔ InLanguage (tree_of places.now) (chars text.now)) }
{
    match positions {
        Some(positions) => Ok(positions.is_match(places, text)),
        None => is_match(alloc, places, text),
    }
}

impl Pattern {
    /// Reads a pattern. `.` is any character but a newline, `[..]` one of a class, `\` takes away what the next character means, and
    /// any other character is itself. `*`, `+` and `?` say how often what stands before them stands, `|` parts rows of which one is
    /// to match, and brackets hold rows. A `^` at the beginning and a `$` at the end mean nothing, since whole texts are matched.
    #[tactic(auto, unfolding(crate::specs::Reading::pattern_of), using(crate::proofs::TreeLemmas::fault_is, crate::proofs::TreeLemmas::read_held))]
    pub fn read(alloc: Global, text: &str) -> Result<Pattern, PatternFault>
        ensures ok { IfOk result (λ p. pattern_of text.now ≡ Ok p) }
        ensures err { IfErr result (λ e. e ≢ PatternFault.NoMemory → pattern_of text.now ≡ Err e) }
        ensures spelled { IfOk result (λ p. (tree : PatternTree) → IsPattern (chars text.now) tree ↔ tree ≡ tree_of p) }
        ensures fault { IfErr result (λ e. e ≢ PatternFault.NoMemory → IsFault e (chars text.now)) }
        ensures none { IfErr result (λ e. e ≢ PatternFault.NoMemory → (tree : PatternTree) → IsPattern (chars text.now) tree → ⊥) }
    {
        match read_places(alloc, text) {
            Ok(places) => {
                let positions = Positions::of(alloc, places.as_slice())?;
                Ok(Pattern { places, positions })
            }
            Err(fault) => Err(fault),
        }
    }

    /// Whether the whole text is in the pattern's language. The time that it takes is the number of the text's characters times that
    /// of the pattern's at most. Of a pattern with at most 64 characters no memory is taken; of a longer one that for two sets of its places,
    /// and for its open brackets.
    pub fn matches(&self, alloc: Global, text: &str) -> Mem<bool>
        ensures value { IfOk result (λ answer. answer ≡ in_language (tree_of self.now) (chars text.now)) }
        ensures relation { IfOk result (λ answer. IsTrue answer ↔ InLanguage (tree_of self.now) (chars text.now)) }
    {
        is_matched(alloc, self.places.as_slice(), &self.positions, text)
    }

    /// How far the longest beginning of the text goes that is in the pattern's language, of those that end at a place or after it,
    /// and at the text's end or before a `.` or `/`. One walk over the text finds it, which takes what a match takes.
    pub fn longest_front(&self, alloc: Global, text: &str, from: usize) -> Mem<Option<usize>>
        ensures { IfOk result (IsLastFront (tree_of self.now) text.now from) }
    {
        last_front(alloc, self.places.as_slice(), text, from)
    }
}
