//! Whether a whole text is in a pattern's language. The text is walked once. Between two characters it is known of each place of
//! the pattern whether the text so far reaches it, so a match takes the number of characters times that of the places at most. It
//! ends where the text so far reaches no place.
ghost use Rattle.std.specs.Prelude.{◌≡◌, ◌↔◌, ◌||◌, [], false, true, IsTrue, IfOk, OnOk, length, replicate};
ghost use Rattle.std.specs.Str.{chars};
ghost use Rattle.regex_rules.specs.Trees.{tree_of, places_of};
ghost use Rattle.regex_rules.specs.Languages.{InLanguage};
ghost use Rattle.regex_rules.specs.Off.{AreOff};
ghost use Rattle.regex_rules.specs.Walks as spec;

use crate::PatternPlace;
use crate::chars::first_char;
use crate::frames::Frames;
use crate::marks::Marks;
use crate::walk::{Walk, begun};
use sp_base::Mem;
use std::alloc::Global;
use std::mem;

// The two sets of places: that of the text so far, and the one that a walk makes of it.
#[derive(Drop)]
pub(crate) struct Sets {
    olds: Marks,
    walk: Walk,
}

impl Sets {
    pub(crate) fn new(alloc: Global, number: usize) -> Mem<Sets>
        ensures { IfOk result (λ sets. sets.olds ≡ replicate number false) }
    {
        Ok(Sets {
            olds: Marks::off(alloc, number)?,
            walk: Walk {
                level: begun(true),
                around: Frames::new(alloc),
                marks: Marks::with_room(alloc, number)?,
            },
        })
    }

    // Whether some row may take nothing.
    pub(crate) fn take_nothing(&mut self, places: &[PatternPlace]) -> Mem<bool>
        ensures answer { IfOk result (λ answer. answer ≡ spec.takes_nothing (spec.walked 0 places.now self.old.olds (spec.at (spec.begun true) [] []))) }
        ensures same { OnOk result (self.new.olds ≡ self.old.olds) }
    {
        self.walk.go('\0', places, self.olds.as_slice(), true)?;
        Ok(self.walk.level.earlier_lacks || self.walk.level.lacks)
    }

    // Takes one more character of the text: whether the text is now at the end of a row.
    pub(crate) fn take(&mut self, c: char, places: &[PatternPlace], enters: bool) -> Mem<bool>
        ensures answer { IfOk result (λ answer. answer ≡ spec.walk_answer (spec.walked c places.now self.old.olds (spec.at (spec.begun enters) [] []))) }
        ensures marks { OnOk result (self.new.olds ≡ (spec.walked c places.now self.old.olds (spec.at (spec.begun enters) [] [])).marks) }
    {
        self.walk.go(c, places, self.olds.as_slice(), enters)?;
        mem::swap(&mut self.walk.marks, &mut self.olds);
        Ok(self.walk.level.earlier_arrives || self.walk.level.arrives)
    }

    // Whether the text so far reaches no place. Where it isn't empty, no text that goes on from it is in the language.
    pub(crate) fn are_off(&self) -> bool
        ensures { result ≡ true → AreOff self.now.olds }
    {
        self.olds.are_off()
    }
}

/// Whether the whole text is in the language of the pattern with these places.
#[tactic(auto, using(crate::proofs::MatchLemmas::more_matched, crate::proofs::MatchLemmas::end_matched))]
pub(crate) fn is_match(alloc: Global, places: &[PatternPlace], text: &str) -> Mem<bool>
    requires { places_of (tree_of places.now) ≡ places.now }
    ensures { IfOk result (λ answer. IsTrue answer ↔ InLanguage (tree_of places.now) (chars text.now)) }
{
    let mut sets = Sets::new(alloc, places.len())?;
    let Some((first, later)) = first_char(text) else {
        return sets.take_nothing(places);
    };
    let mut answer = sets.take(first, places, true)?;
    let mut rest = later;
    while let Some((c, later)) = first_char(rest) {
        if sets.are_off() {
            return Ok(false);
        }
        answer = sets.take(c, places, false)?;
        rest = later;
    }
    Ok(answer)
}
