//! What follows from the definitions of keys and coverage: laws, on functions that do nothing.
ghost use Rattle.std.specs.Prelude.{◌≡◌, ◌↔◌, ℕ, Bool, IsTrue, true, Some};
ghost use Rattle.std.specs.List.{AllByRecursion};
ghost use Rattle.sp_base.specs.Bytes.{AreBytes};
ghost use Rattle.sp_base.specs.Texts.{Segments};
ghost use Rattle.sp_base.specs.Paths.{is_path, mangled_segs, unmangled_segs};
ghost use Rattle.cover_rules.specs.declared.page.PageKey.{PageKey};
ghost use Rattle.cover_rules.specs.declared.invalidation.Invalidation.{Invalidation};
ghost use Rattle.cover_rules.specs.Pages.{IsPageKey, page_key_of, page_path, HasFolderSegments};
ghost use Rattle.cover_rules.specs.Coverage.{outdates, KeepsCoverage, TouchesStat, HasStatAboveHandle};

use sp_base::{mangling_and_unmangling, segments_and_their_spelling};

/// A page has one key, however the path of a request is spelled: its path is the mangled one, and it is the key of that.
pub fn a_page_has_one_key()
    ensures unmangled { (path : Segments) → page_key_of (unmangled_segs path) ≡ page_key_of path }
    ensures mangled { (path : Segments) → page_key_of (mangled_segs path) ≡ page_key_of path }
    ensures path { (path : Segments) (key : PageKey) → IsTrue (is_path path) → page_key_of path ≡ Some key → page_path key ≡ mangled_segs path }
    ensures own { (path : Segments) (key : PageKey) → IsTrue (is_path path) → page_key_of path ≡ Some key → page_key_of (page_path key) ≡ Some key }
{
    mangling_and_unmangling();
    segments_and_their_spelling();
}

/// The key of a path, whose segments have bytes, is the key of a page. Each segment of its folder has a file name and no dot.
pub fn the_key_of_a_path_is_a_page_key()
    ensures key { (path : Segments) (key : PageKey) → IsTrue (is_path path) → AllByRecursion AreBytes path → page_key_of path ≡ Some key → IsPageKey key }
    ensures folder { (key : PageKey) → IsPageKey key → HasFolderSegments key }
{
    a_page_has_one_key();
    mangling_and_unmangling();
}

/// What an invalidation covers doesn't depend on how its handle is spelled.
pub fn the_spelling_of_a_handle()
    ensures unmangled { KeepsCoverage unmangled_segs }
    ensures mangled { KeepsCoverage mangled_segs }
{
    mangling_and_unmangling();
}

/// A touch outdates exactly the pages, of those that .stat files outdate, whose .stat folder is touched, where the segments of the page's
/// folder are those of one, as each page's are (`the_key_of_a_path_is_a_page_key`). That folder is one of those
/// above the handle, so a page elsewhere isn't outdated.
pub fn a_touch_outdates_the_pages_of_its_folders()
    ensures folders { (level : ℕ) (inv : Invalidation) (key : PageKey) → HasFolderSegments key → (outdates level true inv key ≡ true) ↔ TouchesStat level inv key }
    ensures above { (level : ℕ) (auto : Bool) (inv : Invalidation) (key : PageKey) → outdates level auto inv key ≡ true → HasStatAboveHandle level inv key }
{}
