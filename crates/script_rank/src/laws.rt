//! What the ranking is: laws of the definitions, on functions that do nothing.
ghost use Rattle.std.specs.Prelude.{List, IfSome, IfNone};
ghost use Rattle.resource_tree.specs.Content.{Content};
ghost use Rattle.type_chain.specs.declared.type_name.TypeName.{TypeName};
ghost use Rattle.url_split.specs.declared.decompose.Parts.{Parts};
ghost use Rattle.script_rank.specs.Ranking.{HasNoCandidate, IsFirstScript, Key, CandidatesAreOneUnlessBetter, AreOneIfOfOneKey, AreOneIfFirst};
ghost use Rattle.script_rank.specs.Search.{search_result};
ghost use Rattle.sp_base.specs.Texts.{Segments};

/// Two candidates of which neither is better than the other are one script.
pub fn tied_scripts_are_one()
    ensures { (tree : Content) (chain : List TypeName) (parts : Parts) (p q : Segments) (k l : Key) → CandidatesAreOneUnlessBetter tree chain parts p q k l }
{}

/// No two scripts are candidates with one key.
pub fn one_key_is_of_one_script()
    ensures { (tree : Content) (chain : List TypeName) (parts : Parts) (p q : Segments) (k : Key) → AreOneIfOfOneKey tree chain parts p q k }
{}

/// One script at most ranks first.
pub fn one_script_is_first()
    ensures { (tree : Content) (chain : List TypeName) (parts : Parts) (p q : Segments) → AreOneIfFirst tree chain parts p q }
{}

/// The result of the search is the script that ranks first, and there is none exactly where there is no candidate.
pub fn search_finds_the_first()
    ensures first { (tree : Content) (chain : List TypeName) (parts : Parts) → IfSome (search_result tree chain parts) (IsFirstScript tree chain parts) }
    ensures none { (tree : Content) (chain : List TypeName) (parts : Parts) → IfNone (search_result tree chain parts) (HasNoCandidate tree chain parts) }
{}
