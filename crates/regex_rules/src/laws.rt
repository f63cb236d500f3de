//! What the grammar of patterns says: laws of the definitions, on functions that do nothing.
ghost use Rattle.std.specs.Prelude.{◌≡◌, ◌≤◌, ◌↔◌, ◌⊎◌, ℕ, IsTrue, List, Ok, Err, Some};
ghost use Rattle.std.specs.Str.{chars};
ghost use Rattle.regex_rules.specs.Trees.{PatternTree, tree_of, places_of};
ghost use Rattle.regex_rules.specs.Deciding.{pattern_tree};
ghost use Rattle.regex_rules.specs.Spelling.{IsPattern};
ghost use Rattle.regex_rules.specs.Faults.{IsFault};
ghost use Rattle.regex_rules.specs.Languages.{InLanguage, in_language};
ghost use Rattle.regex_rules.specs.Positions.{IsWay, count};
ghost use Rattle.regex_rules.specs.Reading.{pattern_of};
ghost use Rattle.regex_rules.specs.declared.fault.PatternFault.{PatternFault};
ghost use Rattle.regex_rules.specs.declared.place.PatternPlace.{PatternPlace};

/// A text spells one tree at most, and one that spells none has a fault.
pub fn a_text_and_its_tree()
    ensures one { (cs : List ℕ) (tree other : PatternTree) → IsPattern cs tree → IsPattern cs other → tree ≡ other }
    ensures either { (cs : List ℕ) → ((tree : PatternTree) × IsPattern cs tree) ⊎ ((fault : PatternFault) × IsFault fault cs) }
{}

/// The tree that a text spells is the one that it is read as.
pub fn a_text_spells_the_tree_it_is_read_as()
    ensures { (cs : List ℕ) (tree : PatternTree) → IsPattern cs tree ↔ pattern_tree cs ≡ Some tree }
{}

/// The reading from left to right is the grammar: a text is read as the places of a tree exactly where it spells that tree, and the
/// fault of one that is refused is a fault of it.
pub fn the_pattern_reading_is_the_grammar()
    ensures found { (text : List ℕ) (places : List PatternPlace) → pattern_of text ≡ Ok places → IsPattern (chars text) (tree_of places) }
    ensures only { (text : List ℕ) (tree : PatternTree) → IsPattern (chars text) tree → pattern_of text ≡ Ok (places_of tree) }
    ensures fault { (text : List ℕ) (fault : PatternFault) → pattern_of text ≡ Err fault → IsFault fault (chars text) }
{}

/// The test that tries every cutting of a text says whether the text is in the language.
pub fn the_test_is_the_language()
    ensures { (tree : PatternTree) (cs : List ℕ) → IsTrue (in_language tree cs) ↔ InLanguage tree cs }
{}

/// A text is in the language exactly where it has a way through the characters of the pattern, of which there are at most 64.
pub fn the_ways_are_the_language()
    ensures { (tree : PatternTree) (cs : List ℕ) → count tree ≤ 64 → IsWay tree cs ↔ InLanguage tree cs }
{}
