//! The members of a farm's file: how groups are looked into, and which members are passed over, with their lines.
#![tactic(auto)]

mod member_places;
mod members;
mod passed;

pub use members::{FarmMember, members_at, members_of, members_of_farm};
pub use passed::{PassedMember, PassedMemberList, passed_members};
