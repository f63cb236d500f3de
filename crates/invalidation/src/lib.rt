//! Which requests ask for an invalidation, for which one, and how it is carried out, in slices (Adobe Dispatcher manual, "Invalidating Cached
//! Pages From AEM").
#![tactic(auto)]

mod action;
mod handle;
mod inv_fault;
mod opening;
mod place;
mod prefixes;
mod purge;
mod reading;
mod walk;

pub use inv_fault::InvFault;
pub use place::WalkPlace;
pub use purge::{Purge, PurgeStep};
pub use reading::{is_invalidation, read_invalidation};
