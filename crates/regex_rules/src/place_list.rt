//! The places of a pattern that is being read.
ghost use Rattle.std.specs.Prelude.{◌≡◌, [], ◌∷◌, ◌++◌, OnOk, IfOk, Some, None, if◌then◌else◌, MatchOption};
ghost use Rattle.regex_rules.specs.Reading.{repeated_place, with_repeat};

use crate::{PatternPlace, Repeat};
use sp_base::Mem;
use std::alloc::Global;
use std::marker::Model;

/// The places of a pattern, in the order of its text.
#[derive(Drop)]
pub(crate) struct PlaceList {
    places: Vec<PatternPlace>,
}

impl Model for PlaceList {
    ghost use Rattle.std.specs.Prelude.{List};
    ghost use Rattle.regex_rules.specs.declared.place.PatternPlace.{PatternPlace};

    ghost Value = { List PatternPlace };

    ghost view = { λ l. l.places.items };
}

// A place whose piece stands once, with how often it does.
fn repeated(place: PatternPlace, repeat: Repeat) -> Option<PatternPlace>
    ensures { result ≡ repeated_place repeat place }
{
    match place {
        PatternPlace::One(one, Repeat::Once) => Some(PatternPlace::One(one, repeat)),
        PatternPlace::Close(Repeat::Once) => Some(PatternPlace::Close(repeat)),
        _ => None,
    }
}

impl PlaceList {
    pub(crate) fn new(alloc: Global) -> PlaceList
        ensures { result ≡ [] }
    {
        PlaceList {
            places: Vec::new(alloc),
        }
    }

    pub(crate) fn push(&mut self, place: PatternPlace) -> Mem<()>
        ensures { OnOk result (self.new ≡ self.old ++ place ∷ []) }
    {
        self.places.push(place)?;
        Ok(())
    }

    fn pop(&mut self) -> Option<PatternPlace>
        ensures { MatchOption result ((self.old ≡ []) × (self.new ≡ [])) (λ place. self.old ≡ self.new ++ place ∷ []) }
    {
        self.places.pop()
    }

    /// Says how often the last piece stands. Without a last piece that stands once the answer is no.
    #[tactic(auto, using(crate::proofs::PlaceLemmas::nothing_last, crate::proofs::PlaceLemmas::none_last, crate::proofs::PlaceLemmas::some_last))]
    pub(crate) fn repeat_last(&mut self, repeat: Repeat) -> Mem<bool>
        ensures { IfOk result (λ done. with_repeat repeat self.old ≡ (if done then Some self.new else None)) }
    {
        let Some(last) = self.pop() else {
            return Ok(false);
        };
        let Some(place) = repeated(last, repeat) else {
            return Ok(false);
        };
        self.push(place)?;
        Ok(true)
    }

    pub(crate) fn into_places(self) -> Vec<PatternPlace>
        ensures { result.items ≡ self }
    {
        self.places
    }
}
