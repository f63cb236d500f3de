//! Which pages of the cache an invalidation covers, and which .stat files it touches (Adobe Dispatcher manual, "Invalidating Cached
//! Pages From AEM").
#![tactic(auto)]

mod coverage;
mod invalidation;
mod laws;
mod names;
mod page;
mod stamp;
mod touch;
mod walk;

pub use coverage::{StatRule, covers, stat_depth};
pub use invalidation::{Action, Invalidation};
pub use laws::{
    a_page_has_one_key, a_touch_outdates_the_pages_of_its_folders, the_key_of_a_path_is_a_page_key,
    the_spelling_of_a_handle,
};
pub use names::{LONGEST_PAGE_NAME, has_name};
pub use page::{PageKey, page_key};
pub use stamp::Stamp;
pub use touch::touched;
