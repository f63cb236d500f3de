//! What follows from the definitions of names and texts: laws, on functions that do nothing.
ghost use Rattle.std.specs.Prelude.{◌≡◌, ◌≢◌, ◌<◌, ◌^◌, ◌++◌, ◌∷◌, [], ℕ, List, IsTrue, Some, false};
ghost use Rattle.cover_rules.specs.declared.page.PageKey.{PageKey};
ghost use Rattle.cover_rules.specs.declared.stamp.Stamp.{Stamp};
ghost use Rattle.cover_rules.specs.declared.invalidation.Invalidation.{Invalidation};
ghost use Rattle.cover_rules.specs.Coverage.{deletes, stat_folder};
ghost use Rattle.cover_rules.specs.Pages.{IsPageKey};
ghost use Rattle.sp_base.specs.Paths.{is_path, mangled_segs};
ghost use Rattle.sp_outside.specs.FileNames.{beside_ending};
ghost use Rattle.docroot_format.specs.Names.{body_name, epoch_name, have_names, head_name, is_docroot_name, is_page_file, is_place, is_stat_file, stat_name, IsFolder, HaveBytes, IsTouchedBy};
ghost use Rattle.sp_base.specs.Texts.{Segments, Text};
ghost use Rattle.docroot_format.specs.Readings.{HeadLine, epoch_of, head_of, stat_of, IsHeadReadBackIfKind};
ghost use Rattle.docroot_format.specs.Deletions.{IsDeletedByBody, IsDeletedByHead};
ghost use Rattle.docroot_format.specs.Texts.{epoch_text, head_text, stat_text};

use sp_base::{mangling_and_unmangling, segments_and_their_spelling};

/// A page that has a key has files, and so have the .stat files of its folder.
pub fn a_page_has_files()
    ensures page { (key : PageKey) → IsPageKey key → IsTrue (is_place key.folder key.file) }
    ensures folder { (key : PageKey) → IsPageKey key → IsTrue (have_names key.folder) }
{}

/// The folder and the file of a page's key are mangled, and so are the folders that may have stamps for it: those of the key's folder,
/// and each folder that an invalidation touches. Each of their segments has a file name. A folder has one .stat file however it is spelled.
pub fn folders_are_mangled()
    ensures page { (key : PageKey) → IsPageKey key → IsFolder key.folder }
    ensures file { (key : PageKey) → IsPageKey key → mangled_segs (key.file ∷ []) ≡ key.file ∷ [] }
    ensures stat { (level : ℕ) (key : PageKey) → IsPageKey key → IsFolder (stat_folder level key) }
    ensures touched { (level : ℕ) (inv : Invalidation) (folder : Segments) → IsTouchedBy level inv folder → IsFolder folder }
    ensures names { (folder : Segments) → IsFolder folder → IsTrue (have_names (mangled_segs folder)) }
    ensures one { (folder : Segments) → stat_name (mangled_segs folder) ≡ stat_name folder }
{
    mangling_and_unmangling();
}

/// The folders that may have stamps for a page are paths of texts, where the page's key is one and the handle of the invalidation is such a
/// path: the folder whose stamp the page is compared with, and each folder that the invalidation touches.
pub fn folders_of_stamps_are_paths()
    ensures touched { (level : ℕ) (inv : Invalidation) (folder : Segments) → IsTrue (is_path inv.handle) → IsTouchedBy level inv folder → IsTrue (is_path folder) }
    ensures touched_bytes { (level : ℕ) (inv : Invalidation) (folder : Segments) → HaveBytes inv.handle → IsTouchedBy level inv folder → HaveBytes folder }
    ensures stat { (level : ℕ) (key : PageKey) → IsPageKey key → IsTrue (is_path (stat_folder level key)) }
    ensures stat_bytes { (level : ℕ) (key : PageKey) → IsPageKey key → HaveBytes (stat_folder level key) }
{
    mangling_and_unmangling();
    segments_and_their_spelling();
}

/// The texts that are written read as what they were written of.
pub fn texts_are_read_back()
    ensures head { (stamp : Stamp) (size : ℕ) (kind : Text) → stamp.epoch < 2 ^ 64 → stamp.count < 2 ^ 64 → size < 2 ^ 64 → IsHeadReadBackIfKind stamp size kind }
    ensures stat { (stamp : Stamp) → stamp.epoch < 2 ^ 64 → stamp.count < 2 ^ 64 → stat_of (stat_text stamp) ≡ Some stamp }
    ensures epoch { (epoch : ℕ) → 0 < epoch → epoch < 2 ^ 64 → epoch_of (epoch_text epoch) ≡ Some epoch }
{}

/// What reads as a head, a stamp or the number of a session is the text of it: a text of one form has no other spelling. The number of a
/// session is from 1 on and below 2^64.
pub fn what_reads_is_its_text()
    ensures head { (text : Text) (line : HeadLine) → head_of text ≡ Some line → text ≡ head_text line.stamp line.size line.kind }
    ensures stat { (text : Text) (stamp : Stamp) → stat_of text ≡ Some stamp → text ≡ stat_text stamp }
    ensures epoch { (text : Text) (epoch : ℕ) → epoch_of text ≡ Some epoch → text ≡ epoch_text epoch }
    ensures fits { (text : Text) (epoch : ℕ) → epoch_of text ≡ Some epoch → (0 < epoch) × (epoch < 2 ^ 64) }
{}

/// The name of each file lies in the docroot: a disk's guard takes it (`is_inside` of `sp_outside`), since it has no empty segment and none
/// that is `.` or `..`, and each of its bytes is a letter, a digit or one of `.`, `_`, `-`, `%` and the slashes between segments.
pub fn names_lie_in_the_docroot()
    ensures body { (key : PageKey) → IsPageKey key → IsTrue (is_docroot_name (body_name key.folder key.file)) }
    ensures head { (key : PageKey) → IsPageKey key → IsTrue (is_docroot_name (head_name key.folder key.file)) }
    ensures stat { (folder : Segments) → IsTrue (is_path folder) → IsTrue (is_docroot_name (stat_name folder)) }
    ensures epoch { IsTrue (is_docroot_name epoch_name) }
{}

/// Different keys have different files, and so have folders whose mangled paths differ; a page's files, stamps and the session's number stand in files
/// of their own.
pub fn names_are_apart()
    ensures bodies { (key other : PageKey) → IsPageKey key → IsPageKey other → body_name key.folder key.file ≡ body_name other.folder other.file → key ≡ other }
    ensures heads { (key other : PageKey) → IsPageKey key → IsPageKey other → head_name key.folder key.file ≡ head_name other.folder other.file → key ≡ other }
    ensures stats { (folder other : Segments) → HaveBytes folder → HaveBytes other → stat_name folder ≡ stat_name other → mangled_segs folder ≡ mangled_segs other }
    ensures head { (key other : PageKey) → IsPageKey key → IsPageKey other → head_name key.folder key.file ≢ body_name other.folder other.file }
    ensures stat_body { (folder : Segments) (key : PageKey) → HaveBytes folder → IsPageKey key → stat_name folder ≢ body_name key.folder key.file }
    ensures stat_head { (folder : Segments) (key : PageKey) → HaveBytes folder → IsPageKey key → stat_name folder ≢ head_name key.folder key.file }
    ensures epoch_body { (key : PageKey) → IsPageKey key → epoch_name ≢ body_name key.folder key.file }
    ensures epoch_head { (key : PageKey) → IsPageKey key → epoch_name ≢ head_name key.folder key.file }
    ensures epoch_stat { (folder : Segments) → HaveBytes folder → stat_name folder ≢ epoch_name }
{}

/// The files of pages and the .stat files are told by their names: a page's body and head are page files, a folder's stamp is a .stat
/// file, no name is both, and the session's number is neither.
pub fn names_tell_their_files()
    ensures body { (key : PageKey) → IsPageKey key → IsTrue (is_page_file (body_name key.folder key.file)) }
    ensures head { (key : PageKey) → IsPageKey key → IsTrue (is_page_file (head_name key.folder key.file)) }
    ensures stat { (folder : Segments) → IsTrue (is_path folder) → IsTrue (is_stat_file (stat_name folder)) }
    ensures apart { (name : List ℕ) → IsTrue (is_page_file name) → is_stat_file name ≡ false }
    ensures epoch_page { is_page_file epoch_name ≡ false }
    ensures epoch_stat { is_stat_file epoch_name ≡ false }
{}

/// No name ends as that of a file which a disk writes beside another, so that a file of the cache is never taken for one of those.
pub fn no_name_ends_as_one_beside()
    ensures body { (folder : Segments) (file rest : List ℕ) → body_name folder file ≢ rest ++ beside_ending }
    ensures head { (folder : Segments) (file rest : List ℕ) → head_name folder file ≢ rest ++ beside_ending }
    ensures stat { (folder : Segments) (rest : List ℕ) → stat_name folder ≢ rest ++ beside_ending }
    ensures epoch { (rest : List ℕ) → epoch_name ≢ rest ++ beside_ending }
{}

/// An invalidation deletes exactly the page at its handle, and the pages whose files have names that begin with one of its prefixes. It is
/// the same whether a page's body is looked at or its head.
pub fn deleted_pages_are_known_by_names()
    ensures body { (inv : Invalidation) (key : PageKey) → IsPageKey key → IsTrue (is_path inv.handle) → HaveBytes inv.handle → IsDeletedByBody inv key }
    ensures head { (inv : Invalidation) (key : PageKey) → IsPageKey key → IsTrue (is_path inv.handle) → HaveBytes inv.handle → IsDeletedByHead inv key }
{
    segments_and_their_spelling();
}
