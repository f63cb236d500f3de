//! The configuration of the dispatcher: the file `dispatcher.any`, and the farm in it.
#![tactic(auto)]

mod any_fault;
mod entries;
mod farm;
mod farm_fault;
mod farm_reader;
mod hosts;
mod laws;
mod members;
mod node;
mod numbers;
mod reader;
mod standard;
mod stop;
mod tokens;

pub use any_fault::AnyFault;
pub use farm::{Farm, Filter, FilterList, HostList, Test, VirtualHost};
pub use farm_fault::FarmFault;
pub use farm_reader::farm_of;
pub use glob_rules::{Glob, GlobFault, Rule, RuleList};
pub use laws::{a_fault_is_the_first, the_group_reading_is_the_grammar};
pub use node::{AnyList, AnyNode};
pub use reader::{DEEPEST_GROUP, read_any};
pub use regex_rules::Pattern;
pub use standard::STANDARD_FARM;
