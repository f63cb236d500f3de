//! What is wrong with a site before it is served: its faults, and what is likely to be a mistake.
#![tactic(auto)]

mod claims;
mod farm_entries;
mod idle_hiding;
mod mappings;
mod match_faults;
mod pattern_samples;
mod redirect_targets;
mod script_fault;
mod scripts;
mod super_types;
mod types_in_use;

pub use claims::{SharedClaim, SharedClaimList, shared_claims};
pub use farm_entries::{IdleCause, IdleEntry, IdleEntryList, idle_entries};
pub use idle_hiding::{IdleHiding, IdleHidingList, idle_hidings};
pub use mappings::{LostMapping, LostMappingList, MappingEnd, lost_mappings};
pub use match_faults::{IdleMatch, IdleMatchList, MatchFault, idle_matches};
pub use script_fault::{ScriptFault, text_fault};
pub use scripts::{ScriptFaults, is_script_path, script_faults};
pub use super_types::circling_types;
pub use types_in_use::{PathSet, TypeUses, unreached_scripts, unrendered_types};
