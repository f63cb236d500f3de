//! What a decomposition is: laws of the definitions, on functions that do nothing.
ghost use Rattle.std.specs.Prelude.{◌≡◌, ℕ, Bool, List, Some, IsTrue, IfSome, IfNone};
ghost use Rattle.url_split.specs.Split.{IsLost, IsSplit, split_of};
ghost use Rattle.url_split.specs.Spelling.{is_word, GivesBack, AreSelectors, IsSuffix};
ghost use Rattle.url_split.specs.declared.decompose.Parts.{Parts};
ghost use Rattle.sp_base.specs.Texts.{Segments};

use sp_base::a_path_and_its_text;

/// The answer that `split_of` names is the decomposition with the longest resource path, and it names none exactly where no prefix
/// leads to a known path.
pub fn the_split_is_the_longest()
    ensures some { (known : Segments → Bool) (text : List ℕ) → IfSome (split_of known text) (IsSplit known text) }
    ensures none { (known : Segments → Bool) (text : List ℕ) → IfNone (split_of known text) (IsLost known text) }
    ensures only { (known : Segments → Bool) (text : List ℕ) (parts : Parts) → IsSplit known text parts → split_of known text ≡ Some parts }
{}

/// The parts of a decomposition give its text back, but for empty selectors: the text of the resource path, the selectors and the
/// extension with a dot before each, and the suffix. No selector is empty, none has a dot or a slash, and nor has the extension; a
/// suffix begins with a slash.
pub fn the_parts_give_the_text_back()
    ensures text { (known : Segments → Bool) (text : List ℕ) (parts : Parts) → IsSplit known text parts → GivesBack text parts }
    ensures selectors { (known : Segments → Bool) (text : List ℕ) (parts : Parts) → IsSplit known text parts → AreSelectors parts.selectors }
    ensures extension { (known : Segments → Bool) (text : List ℕ) (parts : Parts) → IsSplit known text parts → IsTrue (is_word parts.extension) }
    ensures suffix { (known : Segments → Bool) (text : List ℕ) (parts : Parts) → IsSplit known text parts → IsSuffix parts.suffix }
{
    a_path_and_its_text()
}
