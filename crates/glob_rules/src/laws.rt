//! What a glob's test says: a law of the definitions, on a function that does nothing.
ghost use Rattle.std.specs.Prelude.{◌≡◌, ℕ, List, true};
ghost use Rattle.glob_rules.specs.Globs.{Matches, is_match};
ghost use Rattle.glob_rules.specs.declared.piece.GlobPiece.{GlobPiece};

/// The test of whether a glob matches, by which rules are defined, holds exactly where the glob matches.
pub fn a_test_is_the_relation()
    ensures sound { (glob : List GlobPiece) (cs : List ℕ) → is_match glob cs ≡ true → Matches glob cs }
    ensures complete { (glob : List GlobPiece) (cs : List ℕ) → Matches glob cs → is_match glob cs ≡ true }
{}
