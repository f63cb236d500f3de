//! An index of the pages and stamps that are known: what the files of the cache hold is noted here, so that it needn't be read again. A note may
//! fall at any call, and the page or stamp is then read; what changes in the files has to be forgotten here first.
#![tactic(auto)]

mod generation;
mod index;
mod kept_body;
mod known_page;
mod laws;
mod noted_head;
mod page_note;
mod place;
mod stamps;

pub use index::PageIndex;
pub use known_page::KnownPage;
pub use laws::{
    a_changed_page_leaves_other_notes, a_counted_hit_agrees, a_flush_leaves_what_it_does_not_cover,
    a_noted_head_agrees, a_noted_stamp_agrees, a_touch_leaves_other_notes, an_opening_leaves_notes,
    fewer_notes_agree, forgotten_notes_agree, no_notes_agree_with_any_files,
};
