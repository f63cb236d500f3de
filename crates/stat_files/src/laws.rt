//! What follows from the definitions of stamps: laws, on functions that do nothing.
ghost use Rattle.std.specs.Prelude.{◌≡◌, ◌≢◌, ◌⊎◌, ◌<◌, ◌^◌, true, false, Some, None};
ghost use Rattle.std.specs.FinMap.{empty};
ghost use Rattle.sp_base.specs.Texts.{Segments, Text};
ghost use Rattle.sp_outside.specs.Files.{Files, with_file, without_file};
ghost use Rattle.docroot_format.specs.Names.{HaveBytes, stat_name};
ghost use Rattle.cover_rules.specs.declared.stamp.Stamp.{Stamp};
ghost use Rattle.stat_files.specs.Outdated.{is_older, outdates_page, ForeignStatsOutdate, MissingStatsOutdateNothing, TouchesElsewhereChangeNothing, TouchesOutdateUnlessOlder};
ghost use Rattle.stat_files.specs.Stamps.{IsHeldOrGreatest, IsUpTo, greatest_stamp, stamp_at, stamp_or_greatest, IsReadBack, StampsAreApart, KeepsStamp, FailedTouchesKeepOthers, FailedTouchesLeaveOldOrNew, FailedTouchesLeaveOldStampOrNew, FailedTouchesKeepOtherFiles};

use docroot_format::{names_are_apart, texts_are_read_back};
use sp_outside::files_have_names;

/// The stamp of a folder is the one that it was given last.
pub fn a_stamp_is_read_back()
    ensures { (files : Files) (folder : Segments) (stamp : Stamp) → stamp.epoch < 2 ^ 64 → stamp.count < 2 ^ 64 → IsReadBack files folder stamp }
{
    files_have_names();
    texts_are_read_back();
}

/// The stamp of a folder is the same while another file is written or taken away, that of a folder with another mangled path among them.
pub fn stamps_have_files_of_their_own()
    ensures touched { (files : Files) (folder : Segments) (bytes : Text) → HaveBytes folder → StampsAreApart files folder bytes }
    ensures written { (files : Files) (folder : Segments) (name bytes : Text) → name ≢ stat_name folder → KeepsStamp files (with_file files name bytes) folder }
    ensures removed { (files : Files) (folder : Segments) (name : Text) → name ≢ stat_name folder → KeepsStamp files (without_file files name) folder }
{
    files_have_names();
    names_are_apart();
}

/// The stamp of a folder is the one that its .stat file holds, or, where that is of another form, the greatest.
pub fn a_stamp_is_held_or_the_greatest()
    ensures { (files : Files) (folder : Segments) (stamp : Stamp) → stamp_at files folder ≡ Some stamp → IsHeldOrGreatest files folder stamp }
{}

/// No files hold no stamp.
pub fn empty_files_hold_no_stamp()
    ensures { (folder : Segments) → stamp_at empty folder ≡ None }
{}

/// A .stat file of another form has the greatest stamp: no stamp is above it, by the session and then by the count, so it outdates
/// every page.
pub fn a_foreign_stamp_is_the_greatest()
    ensures foreign { stamp_or_greatest None ≡ greatest_stamp }
    ensures greatest { (stamp : Stamp) → stamp.epoch < 2 ^ 64 → stamp.count < 2 ^ 64 → IsUpTo stamp greatest_stamp }
{}

/// Of two stamps one is older, or they are the same.
pub fn stamps_are_in_order()
    ensures one { (stamp other : Stamp) → (is_older stamp other ≡ true) ⊎ ((stamp ≡ other) ⊎ (is_older other stamp ≡ true)) }
    ensures same { (stamp : Stamp) → is_older stamp stamp ≡ false }
    ensures apart { (stamp other : Stamp) → is_older stamp other ≡ true → is_older other stamp ≡ false }
    ensures through { (stamp other more : Stamp) → is_older stamp other ≡ true → is_older other more ≡ true → is_older stamp more ≡ true }
{}

/// A page is outdated where the stamp of its .stat file is newer than its own, or the same, and where that file is of another form; it
/// isn't where that stamp is older, and where there is no such file.
pub fn what_outdates_a_page()
    ensures same { (stamp : Stamp) → outdates_page (Some stamp) stamp ≡ true }
    ensures newer { (stat page : Stamp) → is_older page stat ≡ true → outdates_page (Some stat) page ≡ true }
    ensures older { (stat page : Stamp) → is_older stat page ≡ true → outdates_page (Some stat) page ≡ false }
    ensures foreign { ForeignStatsOutdate }
    ensures missing { MissingStatsOutdateNothing }
{
    a_foreign_stamp_is_the_greatest();
    stamps_are_in_order();
}

/// A touch of a page's .stat folder outdates the page unless its stamp is newer than the touch, and a touch of another folder doesn't
/// change whether it is outdated.
pub fn a_touch_outdates_what_is_not_newer()
    ensures touched { TouchesOutdateUnlessOlder }
    ensures beside { TouchesElsewhereChangeNothing }
{
    a_stamp_is_read_back();
    files_have_names();
    names_are_apart();
}

/// A touch that failed leaves the old stamp or, where the disk failed, the new one; each other file, so each other stamp, is as it was.
pub fn a_failed_touch_leaves_the_old_stamp_or_the_new()
    ensures whole { FailedTouchesLeaveOldOrNew }
    ensures stamp { FailedTouchesLeaveOldStampOrNew }
    ensures others { FailedTouchesKeepOthers }
    ensures beside { FailedTouchesKeepOtherFiles }
{
    a_stamp_is_read_back();
    files_have_names();
    stamps_have_files_of_their_own();
}
