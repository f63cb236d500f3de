//! The stamps of folders: a .stat file in a folder outdates the pages below it that are older (Adobe Dispatcher manual,
//! "Invalidating Files by Folder Level").
#![tactic(auto)]

mod laws;
mod outdated;
mod stat;

pub use laws::{
    a_failed_touch_leaves_the_old_stamp_or_the_new, a_foreign_stamp_is_the_greatest,
    a_stamp_is_held_or_the_greatest, a_stamp_is_read_back, a_touch_outdates_what_is_not_newer,
    empty_files_hold_no_stamp, stamps_are_in_order, stamps_have_files_of_their_own,
    what_outdates_a_page,
};
pub use outdated::outdates_page;
pub use stat::{stamp_of, touch};
