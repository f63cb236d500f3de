//! What a mapping is in the subject's words: laws of the definitions, on functions that do nothing.
ghost use Rattle.std.specs.Prelude.{◌≡◌, ℕ, Option, true};
ghost use Rattle.sp_base.specs.Texts.{Text};
ghost use Rattle.resource_tree.specs.Content.{Content, IsGood};
ghost use Rattle.url_maps.specs.Aliases.{FirstSiblingsAreNamed};
ghost use Rattle.url_maps.specs.VanityPaths.{GreatestOrdersAreNamed, LeastPathsAreNamed};
ghost use Rattle.url_maps.specs.Answers.{map_answer, IsTheAnswerIfMapped, IsAway};
ghost use Rattle.url_maps.specs.Mappings.{is_redirect};
ghost use Rattle.url_maps.specs.Patterns.{Asked};
ghost use Rattle.url_maps.specs.Pairs.{AreOneIfBothDecide};
ghost use Rattle.url_maps.specs.Turns.{HasNoPairFor, IsMapped, AreOneIfMapped};
ghost use Rattle.url_maps.specs.declared.answer.MapAnswer.{MapAnswer};
ghost use Rattle.url_maps.specs.declared.answer.MapAnswer.TheVariants.{Inside};
ghost use Rattle.url_maps.specs.declared.pairs.Pair.{Pair};

use sp_base::a_path_and_its_text;

/// A text to which no pair applies is mapped to itself.
pub fn a_text_without_a_pair_is_mapped_to_itself()
    ensures { (tree : Content) (host : Text) (port : ℕ) (text : Text) → HasNoPairFor tree host port text → IsMapped tree host port text (Inside text) }
{}

/// At most one pair decides a turn.
pub fn at_most_one_pair_decides()
    ensures { (tree : Content) (asked : Option Asked) (text : Text) (at k : ℕ) (p q : Pair) → IsGood tree → AreOneIfBothDecide tree asked text at p k q }
{
    a_path_and_its_text()
}

/// A text is mapped to one answer.
pub fn a_text_is_mapped_to_one_answer()
    ensures { (tree : Content) (host : Text) (port : ℕ) (text : Text) (answer other : MapAnswer) → IsGood tree → AreOneIfMapped tree host port text answer other }
{
    a_path_and_its_text()
}

/// A text is mapped to one answer, and this is it.
pub fn the_answer_is_mapped()
    ensures is { (tree : Content) (host : Text) (port : ℕ) (text : Text) → IsGood tree → IsMapped tree host port text (map_answer tree host port text) }
    ensures only { (tree : Content) (host : Text) (port : ℕ) (text : Text) (answer : MapAnswer) → IsGood tree → IsTheAnswerIfMapped tree host port text answer }
{
    a_path_and_its_text();
    a_text_is_mapped_to_one_answer();
}

/// A text that leads away does so by a status of a redirect.
pub fn away_is_a_redirect()
    ensures { (tree : Content) (host : Text) (port : ℕ) (text target : Text) (status : ℕ) → IsAway tree host port text status target → is_redirect status ≡ true }
{}

/// Of siblings with one alias the first in their order is named: where any of them stands, the named one stands there or before it.
pub fn of_siblings_with_one_alias_the_first_is_named()
    ensures { FirstSiblingsAreNamed }
{}

/// Of several nodes with one vanity path one with the greatest order is named, and of those with that order the one whose
/// path's text is least.
pub fn of_nodes_with_one_vanity_path_the_greatest_order_is_named()
    ensures greatest { GreatestOrdersAreNamed }
    ensures least { LeastPathsAreNamed }
{}
