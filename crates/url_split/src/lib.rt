//! The decomposition of a URL's path into resource path, selectors, extension and suffix (Apache Sling, "URL decomposition").
#![tactic(auto)]

mod decompose;
mod laws;
mod lookup;
mod start;

pub use decompose::{Parts, split};
pub use laws::{the_parts_give_the_text_back, the_split_is_the_longest};
pub use lookup::Known;
