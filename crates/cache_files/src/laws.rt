//! What follows from the definitions of pages and epochs: laws, on functions that do nothing.
ghost use Rattle.std.specs.Prelude.{◌≡◌, ◌≢◌, ◌<◌, ◌≤◌, ◌+◌, ℕ, None, Ok, option_and_then};
ghost use Rattle.sp_base.specs.Texts.{Segments, Text};
ghost use Rattle.sp_base.specs.declared.answer.Answer.{Answer};
ghost use Rattle.sp_outside.specs.Files.{Files, with_file, without_file};
ghost use Rattle.docroot_format.specs.Names.{HaveBytes, epoch_name};
ghost use Rattle.docroot_format.specs.Texts.{epoch_text};
ghost use Rattle.cover_rules.specs.Pages.{IsPageKey};
ghost use Rattle.cover_rules.specs.declared.page.PageKey.{PageKey};
ghost use Rattle.cover_rules.specs.declared.stamp.Stamp.{Stamp};
ghost use Rattle.cache_files.specs.Changes.{HasNoPage, HasPage, IsOldNoneOrNew, IsOldOrNone, KeepsFiles, KeepsOtherPages, KeepsPages, KeepsStamps, LeftByDrop, LeftByPutOutOfMemory, LeftByPut, StampKeepsPages, StampKeepsEpoch, files_amid_put, HasOldPageOrNone, HasOldHeadOrNone, KeepsPageBeside, OfFilesAndPut, OfEachPut};
ghost use Rattle.cache_files.specs.Epochs.{epoch_held, greatest_epoch, next_epoch};
ghost use Rattle.cache_files.specs.Pages.{IsPagePut, files_with_page, files_without_page, head_at, known_at, page_at, page_body_name, page_head_name};

use docroot_format::{names_are_apart, texts_are_read_back};
use sp_outside::files_have_names;

/// A page that was put is the page of its key, with an empty location, and its head says so.
pub fn a_page_is_read_back()
    ensures { OfEachPut (λ files key stamp answer. IsPagePut stamp answer → HasPage (files_with_page files key stamp answer) key stamp answer) }
{
    files_have_names();
    texts_are_read_back();
}

/// The page of a key is the one under its head, so a page may be read by its head, and then its body.
pub fn a_page_is_its_head_and_its_body()
    ensures { (files : Files) (key : PageKey) → page_at files key ≡ option_and_then (known_at files key) (head_at files key) }
{}

/// A page is there as it was while another is put, and while another is dropped, and one that was dropped isn't there. The same is true
/// of the heads of pages.
pub fn pages_have_files_of_their_own()
    ensures put { OfEachPut (λ files key stamp answer. IsPageKey key → KeepsOtherPages files (files_with_page files key stamp answer) key) }
    ensures dropped { (files : Files) (key : PageKey) → HasNoPage (files_without_page files key) key }
    ensures beside { (files : Files) (key : PageKey) → IsPageKey key → KeepsOtherPages files (files_without_page files key) key }
{
    files_have_names();
    names_are_apart();
}

/// Pages, stamps of folders and the number of the session stand apart. A put and a drop of a page change no stamp and not the number.
/// Bytes that are written as a folder's stamp or as the number change no page, and such a stamp not the number. Neither does a removal
/// of another file than that of the number.
pub fn pages_stand_apart()
    ensures put { OfEachPut (λ files key stamp answer. IsPageKey key → KeepsStamps files (files_with_page files key stamp answer)) }
    ensures dropped { (files : Files) (key : PageKey) → IsPageKey key → KeepsStamps files (files_without_page files key) }
    ensures touched { (files : Files) (folder : Segments) (bytes : Text) → HaveBytes folder → StampKeepsPages files folder bytes }
    ensures numbered { (files : Files) (bytes : Text) → KeepsPages files (with_file files epoch_name bytes) }
    ensures epoch { (files : Files) (folder : Segments) (bytes : Text) → HaveBytes folder → StampKeepsEpoch files folder bytes }
    ensures removed { (files : Files) (name : Text) → name ≢ epoch_name → epoch_held (without_file files name) ≡ epoch_held files }
{
    files_have_names();
    names_are_apart();
}

/// A put that stops leaves the old page, no page, or the new one: once the old head is taken away there is no page until the new head
/// is written.
pub fn a_stopped_put_leaves_no_page()
    ensures headless { (files : Files) (key : PageKey) → HasNoPage (without_file files (page_head_name key)) key }
    ensures written { (files : Files) (key : PageKey) (bytes : Text) → HasNoPage (files_amid_put files key bytes) key }
{
    files_have_names();
}

/// A file that is taken away, whichever it is, leaves each page as it was, or takes it away. It takes a page away where it is its head or
/// its body; without its body its head stays as it was.
pub fn a_removal_leaves_pages_or_none()
    ensures page { (files : Files) (key : PageKey) (name : Text) → HasOldPageOrNone files (without_file files name) key }
    ensures head { (files : Files) (key : PageKey) (name : Text) → HasOldHeadOrNone files (without_file files name) key }
    ensures beside { (files : Files) (key : PageKey) (name : Text) → KeepsPageBeside files key name }
    ensures headless { (files : Files) (key : PageKey) → HasNoPage (without_file files (page_head_name key)) key }
    ensures bodiless { (files : Files) (key : PageKey) → page_at (without_file files (page_body_name key)) key ≡ None }
    ensures its_head { (files : Files) (key : PageKey) (name : Text) → name ≢ page_head_name key → head_at (without_file files name) key ≡ head_at files key }
{
    files_have_names();
    a_stopped_put_leaves_no_page();
}

/// A put that failed leaves the old page, no page, or the new one, and each other page, each stamp, the number of the session and each
/// other file as it was.
pub fn a_failed_put_leaves_whole_pages()
    ensures page { OfFilesAndPut (λ files new key stamp answer. LeftByPut files new key stamp answer → IsOldNoneOrNew files new key stamp answer) }
    ensures others { OfFilesAndPut (λ files new key stamp answer. IsPageKey key → LeftByPut files new key stamp answer → KeepsOtherPages files new key) }
    ensures stamps { OfFilesAndPut (λ files new key stamp answer. IsPageKey key → LeftByPut files new key stamp answer → KeepsStamps files new) }
    ensures files { OfFilesAndPut (λ files new key stamp answer. LeftByPut files new key stamp answer → KeepsFiles files new key) }
{
    files_have_names();
    names_are_apart();
    a_stopped_put_leaves_no_page();
}

/// A put that found no memory on its way leaves the old page or no page.
pub fn a_put_out_of_memory_leaves_the_old_page_or_none()
    ensures { (files new : Files) (key : PageKey) (stamp : Stamp) (answer : Answer) → LeftByPutOutOfMemory files new key stamp answer → IsOldOrNone files new key }
{
    a_stopped_put_leaves_no_page();
}

/// A drop that failed leaves the old page or none, and each other page, each stamp, the number of the session and each other file as it
/// was.
pub fn a_failed_drop_leaves_whole_pages()
    ensures page { (files new : Files) (key : PageKey) → LeftByDrop files new key → IsOldOrNone files new key }
    ensures others { (files new : Files) (key : PageKey) → IsPageKey key → LeftByDrop files new key → KeepsOtherPages files new key }
    ensures stamps { (files new : Files) (key : PageKey) → IsPageKey key → LeftByDrop files new key → KeepsStamps files new }
    ensures files { (files new : Files) (key : PageKey) → LeftByDrop files new key → KeepsFiles files new key }
{
    files_have_names();
    names_are_apart();
    a_stopped_put_leaves_no_page();
}

/// Each session has a number above that of the last one, and so above every number up to it.
pub fn session_epochs_rise()
    ensures next { (files : Files) (epoch : ℕ) → 0 < epoch → epoch < greatest_epoch → next_epoch (with_file files epoch_name (epoch_text epoch)) ≡ Ok (epoch + 1) }
    ensures above { (files : Files) (epoch before : ℕ) → next_epoch files ≡ Ok epoch → before ≤ epoch_held files → before < epoch }
{
    files_have_names();
    texts_are_read_back();
}
