//! From the path of a request to the path of a resource: mappings, aliases and vanity paths (Apache Sling, "Mappings for resource
//! resolution").
#![tactic(auto)]

mod aliases;
mod answer;
mod asked;
mod change;
mod claimed;
mod claims;
mod claims_change;
mod fronts;
mod index;
mod laws;
mod leaders;
mod mappings;
mod named_kids;
mod pairs;
mod parents;
mod patterns;
mod reach;
mod siblings;
mod turns;
mod vanity_paths;
mod words;

pub use answer::MapAnswer;
pub use change::IndexChange;
pub use index::MapIndex;
pub use laws::{
    a_text_is_mapped_to_one_answer, a_text_without_a_pair_is_mapped_to_itself,
    at_most_one_pair_decides, away_is_a_redirect,
    of_nodes_with_one_vanity_path_the_greatest_order_is_named,
    of_siblings_with_one_alias_the_first_is_named, the_answer_is_mapped,
};
pub use turns::map_in;
