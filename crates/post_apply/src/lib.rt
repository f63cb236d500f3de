//! What a POST makes of the content: the operation that its form asks for, done over a tree, or refused with the first cause (Apache
//! Sling, "SlingPostServlet").
#![tactic(auto)]

mod carries;
mod fault;
mod laws;
mod modify;
mod names;
mod numbers;
mod posting;
mod removals;
mod report;
mod spots;
mod steps;
mod values;
mod way;

pub use fault::ApplyFault;
pub use laws::{
    a_made_name_is_the_least_that_is_free, operations_keep_content_good, refusals_have_causes,
};
pub use posting::{Planned, apply, patch_of};
pub use report::PostReport;
