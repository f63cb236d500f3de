//! Which script renders a resource (Apache Sling, "Servlets and Scripts", "Script Naming Conventions" and "Scripts Location"): of the
//! scripts that may answer a request the one that is named most closely to it.
#![tactic(auto)]

mod change;
mod index;
mod laws;
mod listed;
mod lookup;
mod naming;
mod ranking;
mod script;
mod spelling;
mod texts;

pub use change::ScriptChange;
pub use index::ScriptIndex;
pub use laws::{
    one_key_is_of_one_script, one_script_is_first, search_finds_the_first, tied_scripts_are_one,
};
pub use naming::Naming;
pub use ranking::{first_script, script_of};
pub use script::script_text;
pub use texts::is_script_name;
