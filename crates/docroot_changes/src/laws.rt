//! What each call on the files makes of the pages, the stamps and the number of the session: laws, on functions that do nothing.
ghost use Rattle.docroot_changes.specs.Changes.{PutsSetThePage, FailedPutsMaySetThePage, TouchesSetTheStamp, FailedTouchesMaySetTheStamp, DropsLeaveNoPage, FailedDropsMayLeaveNoPage, OpeningsSetTheNumber, FailedOpeningsMaySetTheNumber};

use cache_files::{
    a_failed_drop_leaves_whole_pages, a_failed_opening_leaves_the_old_number_or_the_next,
    a_failed_put_leaves_whole_pages, a_page_is_read_back,
    a_put_out_of_memory_leaves_the_old_page_or_none, a_session_is_after_every_stamp,
    no_stamp_is_later_than_the_session, pages_have_files_of_their_own, pages_stand_apart,
};
use docroot_format::{names_are_apart, texts_are_read_back, what_reads_is_its_text};
use sp_outside::files_have_names;
use stat_files::{
    a_failed_touch_leaves_the_old_stamp_or_the_new, a_stamp_is_read_back,
    stamps_have_files_of_their_own,
};

/// A put sets the page of its key (`put_page`: `ok`); one that failed leaves the old page, none, or, where the disk failed, the new one
/// (`err`). Other pages, each stamp and the number of the session are as they were.
pub fn what_a_put_sets()
    ensures put { PutsSetThePage }
    ensures stopped { FailedPutsMaySetThePage }
{
    a_page_is_read_back();
    a_failed_put_leaves_whole_pages();
    a_put_out_of_memory_leaves_the_old_page_or_none();
    no_stamp_is_later_than_the_session();
    names_are_apart();
}

/// A drop leaves no page of its key (`drop_page`: `ok`); one that failed leaves the old page or, where the disk failed, none (`err`). Other
/// pages, each stamp and the number of the session are as they were.
pub fn what_a_drop_sets()
    ensures dropped { DropsLeaveNoPage }
    ensures stopped { FailedDropsMayLeaveNoPage }
{
    pages_have_files_of_their_own();
    a_failed_drop_leaves_whole_pages();
    no_stamp_is_later_than_the_session();
    names_are_apart();
}

/// A touch sets the stamp of its folder (`touch`: `ok`); one that failed leaves the old stamp or, where the disk failed, the new one
/// (`err`). Each page, the stamps of other folders and the number of the session are as they were.
pub fn what_a_touch_sets()
    ensures touched { TouchesSetTheStamp }
    ensures stopped { FailedTouchesMaySetTheStamp }
{
    a_stamp_is_read_back();
    a_failed_touch_leaves_the_old_stamp_or_the_new();
    stamps_have_files_of_their_own();
    pages_stand_apart();
    no_stamp_is_later_than_the_session();
    files_have_names();
    names_are_apart();
}

/// An opening sets the number of the session, one more than before (`open_epoch`: `ok`, `after`); one that failed leaves the old number or,
/// where the disk failed, the next (`left`). Each page and each stamp is as it was.
pub fn what_an_opening_sets()
    ensures opened { OpeningsSetTheNumber }
    ensures stopped { FailedOpeningsMaySetTheNumber }
{
    a_session_is_after_every_stamp();
    a_failed_opening_leaves_the_old_number_or_the_next();
    pages_stand_apart();
    files_have_names();
    names_are_apart();
    texts_are_read_back();
    what_reads_is_its_text();
}
