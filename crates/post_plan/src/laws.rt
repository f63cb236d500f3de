//! What a form asks for: laws of the definitions, on functions that do nothing.
ghost use Rattle.std.specs.List.{list_all};
ghost use Rattle.std.specs.Prelude.{◌≡◌, ◌≤◌, ℕ, List, flat_map, length, take, true};
ghost use Rattle.post_plan.specs.MadeNames.{is_made_byte, run_name, AreRunsOf, HasRuns, HasTwoUnderscores, NameRun};
ghost use Rattle.post_plan.specs.NewNames.{longest_made, made_name, or_node};
ghost use Rattle.post_plan.specs.OperationPaths.{AsksForPaths};

use sp_base::a_path_and_its_text;

/// What a form asks for at a path names paths alone, whatever its parameters say.
pub fn operations_name_paths()
    ensures { AsksForPaths }
{
    a_path_and_its_text()
}

/// A word is cut into runs of ASCII letters and digits and runs of other bytes. Its made name is what stands for these, the first 20 bytes,
/// or `node`. It has lower-case letters, digits and `_` alone, one of them at least, and no `_` after another.
pub fn made_names_are_their_words_runs()
    ensures runs { (word : List ℕ) → HasRuns word }
    ensures name { (word : List ℕ) (runs : List NameRun) → AreRunsOf word runs → made_name word ≡ or_node (take longest_made (flat_map run_name runs)) }
    ensures bytes { (word : List ℕ) → list_all is_made_byte (made_name word) ≡ true }
    ensures some { (word : List ℕ) → 1 ≤ length (made_name word) }
    ensures few { (word : List ℕ) → length (made_name word) ≤ longest_made }
    ensures single { (word : List ℕ) → HasTwoUnderscores (made_name word) → ⊥ }
{}
