//! The number of a session is above each stamp of an earlier one: laws, on functions that do nothing.
ghost use Rattle.std.specs.Prelude.{◌≡◌, ◌≢◌, ◌⊎◌, ◌<◌, ℕ, Some, Ok};
ghost use Rattle.std.specs.FinMap.{empty};
ghost use Rattle.sp_base.specs.Texts.{Segments, Text};
ghost use Rattle.sp_outside.specs.Files.{Files, without_file};
ghost use Rattle.docroot_format.specs.Names.{epoch_name};
ghost use Rattle.cover_rules.specs.Pages.{IsPageKey};
ghost use Rattle.cover_rules.specs.declared.page.PageKey.{PageKey};
ghost use Rattle.cover_rules.specs.declared.stamp.Stamp.{Stamp};
ghost use Rattle.cache_files.specs.Changes.{HasNoPage, LeftByDrop, OfEachPut};
ghost use Rattle.cache_files.specs.Epochs.{IsOpened, LeftByOpening, epoch_held, files_with_epoch, next_epoch, HasOldNumberOrNext, KeepsFileBesideNumber};
ghost use Rattle.cache_files.specs.declared.epoch.OpenFault.{OpenFault};
ghost use Rattle.cache_files.specs.declared.epoch.OpenFault.TheVariants.{Disk as open_disk};
ghost use Rattle.cache_files.specs.declared.page.Page.{Page};
ghost use Rattle.cache_files.specs.HeldStamps.{HasNoLaterStamp, HoldsStamp, IsPageStamp, IsSessionPut, IsSessionTouch, KeepsOrder, FailedPutsKeepOrder, KeepsOrderWithStamp};
ghost use Rattle.cache_files.specs.Pages.{files_with_page, files_without_page, page_at};

use docroot_format::{names_are_apart, texts_are_read_back, what_reads_is_its_text};
use sp_outside::files_have_names;

/// A session that is opened has a number above each stamp in the files, and these then hold no stamp later than that, if they held none
/// later than their own number before (`HasNoLaterStamp`). An opening that failed leaves none either.
pub fn a_session_is_after_every_stamp()
    ensures above { (files : Files) (next : ℕ) (stamp : Stamp) → HasNoLaterStamp files → next_epoch files ≡ Ok next → HoldsStamp files stamp → stamp.epoch < next }
    ensures opened { (files : Files) (epoch : ℕ) → next_epoch files ≡ Ok epoch → KeepsOrder files (files_with_epoch files epoch) }
    ensures failed { (files new : Files) (fault : OpenFault) → LeftByOpening files new fault → KeepsOrder files new }
{
    files_have_names();
    names_are_apart();
    texts_are_read_back();
    what_reads_is_its_text();
    a_failed_opening_leaves_the_old_number_or_the_next();
}

/// A page or a stamp of the session, or of an earlier one, is no later stamp, and neither does a file that goes leave one.
pub fn no_stamp_is_later_than_the_session()
    ensures put { OfEachPut (λ files key stamp answer. IsSessionPut files key stamp answer → KeepsOrder files (files_with_page files key stamp answer)) }
    ensures dropped { (files : Files) (key : PageKey) → IsPageKey key → KeepsOrder files (files_without_page files key) }
    ensures touched { (files : Files) (folder : Segments) (stamp : Stamp) → IsSessionTouch files folder stamp → KeepsOrderWithStamp files folder stamp }
    ensures removed { (files : Files) (name : Text) → name ≢ epoch_name → KeepsOrder files (without_file files name) }

    // The same of what a put or a drop leaves that failed.
    ensures put_failed { FailedPutsKeepOrder }
    ensures drop_failed { (files new : Files) (key : PageKey) → IsPageKey key → LeftByDrop files new key → KeepsOrder files new }
{
    files_have_names();
    names_are_apart();
    texts_are_read_back();
}

/// An opening that failed leaves the old number or, where the disk failed as it was written, the next; each other file is as it was.
pub fn a_failed_opening_leaves_the_old_number_or_the_next()
    ensures whole { (files new : Files) (fault : OpenFault) → LeftByOpening files new fault → (new ≡ files) ⊎ ((fault ≡ open_disk) × IsOpened files new) }
    ensures number { (files new : Files) (fault : OpenFault) → LeftByOpening files new fault → HasOldNumberOrNext files new }
    ensures beside { (files new : Files) (fault : OpenFault) (name : Text) → LeftByOpening files new fault → KeepsFileBesideNumber files new name }
{
    files_have_names();
    texts_are_read_back();
    what_reads_is_its_text();
}

/// The stamp of a page is one that the files hold, so it is of no session after the one that they hold where no stamp is.
pub fn a_page_has_a_held_stamp()
    ensures { (files : Files) (key : PageKey) (page : Page) → IsPageKey key → page_at files key ≡ Some page → IsPageStamp files page.stamp }
{}

/// No files hold no page, no head and no stamp of a later session, and the session after them is the first.
pub fn empty_files_hold_no_page()
    ensures page { (key : PageKey) → HasNoPage empty key }
    ensures later { HasNoLaterStamp empty }
    ensures epoch { epoch_held empty ≡ 0 }
    ensures next { next_epoch empty ≡ Ok 1 }
{}
