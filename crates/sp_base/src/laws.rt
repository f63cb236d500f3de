//! How paths and their texts belong together: laws of the definitions, on functions that do nothing.
ghost use Rattle.std.specs.Prelude.{◌≡◌, ◌<◌, ◌≤◌, ℕ, IsTrue, false, Ok, ◌∷◌, length, take};
ghost use Rattle.std.specs.List.{AllByRecursion, list_any};
ghost use Rattle.sp_base.specs.Bytes.{AreBytes};
ghost use Rattle.sp_base.specs.Paths.{is_long, is_path, path_of, pieces, text_of, mangled_segs, mangled_of, unmangled_segs, IsReadUpTo, HasSlashAfter, IsUnderParentOf, FitsIfShort};
ghost use Rattle.sp_base.specs.PathTexts.{lack_slashes, segs_in, spelling_of, SpellingsTell};
ghost use Rattle.sp_base.specs.Texts.{Segments, Text};

use crate::Path;

/// The text of a path reads as that path, and a text that reads as a path is the path's text.
pub fn a_path_and_its_text()
    ensures read { (path : Segments) → IsTrue (is_path path) → path_of (text_of path) ≡ Ok path }
    ensures spelled { (text : Text) (path : Segments) → path_of text ≡ Ok path → text_of path ≡ text }
    ensures valid { (text : Text) (path : Segments) → path_of text ≡ Ok path → IsTrue (is_path path) }
{}

/// A prefix of a path's text that reads as a path reads as one whose parent is the path or an ancestor of it, and it is no longer
/// than as many first segments of the path. A slash follows these.
pub fn the_prefixes_of_a_path()
    ensures parent { (path read : Segments) (n : ℕ) → IsTrue (is_path path) → n ≤ length (text_of path) → IsReadUpTo path n read → IsUnderParentOf path read }
    ensures within { (path read : Segments) (n k : ℕ) → IsTrue (is_path path) → n ≤ length (text_of path) → IsReadUpTo path n read → FitsIfShort path n read k }
    ensures first { (path : Segments) (n : ℕ) → 0 < n → text_of (take n path) ≡ take (length (text_of (take n path))) (text_of path) }
    ensures slash { (path : Segments) (n : ℕ) → 0 < n → length (text_of (take n path)) < length (text_of path) → HasSlashAfter path n }
{}

/// Mangling and unmangling undo each other: of a path that is unmangled, unmangling gives its mangled form back, and however a
/// path is spelled its mangled form is one.
pub fn mangling_and_unmangling()
    ensures back { (path : Segments) → unmangled_segs (mangled_segs path) ≡ unmangled_segs path }
    ensures one { (path : Segments) → mangled_segs (unmangled_segs path) ≡ mangled_segs path }
    ensures again { (path : Segments) → mangled_segs (mangled_segs path) ≡ mangled_segs path }

    // A mangled path is one unless a segment grew too long.
    ensures fits { (path : Segments) → IsTrue (is_path path) → list_any is_long (mangled_segs path) ≡ false → mangled_of path ≡ Ok (mangled_segs path) }
    ensures path { (path : Segments) → IsTrue (is_path path) → list_any is_long (mangled_segs path) ≡ false → IsTrue (is_path (mangled_segs path)) }
    ensures bytes { (path : Segments) → AllByRecursion AreBytes path → AllByRecursion AreBytes (mangled_segs path) }
{}

/// A path's segments have bytes, as the laws on different paths want it.
pub fn a_path_has_bytes(path: &Path)
    ensures { AllByRecursion AreBytes path.now }
{
    let _spelling = path.spelling().as_bytes();
}

/// Whether a path is under another is read off their texts. The pieces of any text may stand for segments, as a page's file after its
/// folder.
pub fn segments_and_their_spelling()
    ensures under { (path other : Segments) → IsTrue (lack_slashes path) → IsTrue (lack_slashes other) → SpellingsTell path other }
    ensures path { (path : Segments) → IsTrue (is_path path) → IsTrue (lack_slashes path) }
    ensures mangled { (path : Segments) → IsTrue (lack_slashes path) → IsTrue (lack_slashes (mangled_segs path)) }
    ensures pieces { (text : Text) → IsTrue (lack_slashes (pieces text)) }
    ensures back { (path : Segments) → IsTrue (lack_slashes path) → segs_in (spelling_of path) ≡ path }
    ensures spelled { (text : Text) → spelling_of (pieces text) ≡ 47 ∷ text }
{}
