//! What each call on the files of the cache makes of the pages, the stamps of folders and the number of the session that they hold, and
//! which calls of the disk it makes: laws, on functions that do nothing.
#![tactic(auto)]

mod calls;
mod laws;

pub use calls::{
    an_opening_takes_docroot_calls, docroot_calls_add_up, docroot_calls_lead_nowhere_out,
    pages_take_docroot_calls, stamps_take_docroot_calls,
};
pub use laws::{what_a_drop_sets, what_a_put_sets, what_a_touch_sets, what_an_opening_sets};
