//! Laws of pages: what stands for a script or a resource that is put in, which pages are refused, and what a slash changes. Definitions and laws
//! alone.
#![tactic(auto)]

mod laws;

pub use laws::{
    a_page_is_refused_where_a_limit_is_passed, a_slash_changes_no_answer_to_a_read,
    what_is_put_in_is_its_own_page,
};
