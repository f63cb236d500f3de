//! Resource types, the places below which the scripts of a type lie, and the chain of a resource's types from its own to the one of
//! the default servlets (Apache Sling, "Servlets and Scripts", "Resource types").
#![tactic(auto)]

mod inheritance;
mod laws;
mod script_places;
mod search_paths;
mod type_name;

pub use inheritance::{ChainWithScriptPlaces, chain, chain_with_script_places, type_text};
pub use laws::{
    a_chain_is_short, a_super_type_follows, each_type_is_the_super_type_of_the_one_before,
    no_type_repeats, the_chain_is_determined, the_default_type_ends_the_chain,
    the_own_type_is_first, the_super_type_of_the_resource_is_next,
};
pub use script_places::{ScriptPlace, ScriptPlaceList, type_script_places};
pub use search_paths::{place_of, places};
pub use type_name::{TypeList, TypeName};
