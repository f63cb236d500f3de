//! The pages of the cache as files, and the number of the session: what each call makes of the files, and what it leaves where the
//! disk fails in it.
#![tactic(auto)]

mod epoch;
mod epoch_laws;
mod head_note;
mod laws;
mod page;

pub use epoch::{OpenFault, open_epoch};
pub use epoch_laws::{
    a_failed_opening_leaves_the_old_number_or_the_next, a_page_has_a_held_stamp,
    a_session_is_after_every_stamp, empty_files_hold_no_page, no_stamp_is_later_than_the_session,
};
pub use head_note::{HeadNote, get_head, get_known};
pub use laws::{
    a_failed_drop_leaves_whole_pages, a_failed_put_leaves_whole_pages,
    a_page_is_its_head_and_its_body, a_page_is_read_back,
    a_put_out_of_memory_leaves_the_old_page_or_none, a_removal_leaves_pages_or_none,
    a_stopped_put_leaves_no_page, pages_have_files_of_their_own, pages_stand_apart,
    session_epochs_rise,
};
pub use page::{Page, drop_page, get_page, put_page};
