//! How the groups of a farm's file are looked into.

use any_config::AnyNode;
use sp_base::TextBuf;

/// A member with its name, empty where it has none.
pub type FarmMember = (TextBuf, AnyNode);

/// The members of a group; another value has none.
pub fn members_of(node: &AnyNode) -> &[FarmMember] {
    match node {
        AnyNode::Group(list) => list.as_slice(),
        _ => &[],
    }
}

/// The members of the first group of this name.
pub fn members_at<'a>(members: &'a [FarmMember], name: &str) -> &'a [FarmMember] {
    for member in members {
        if member.0.text() == name {
            return members_of(&member.1);
        }
    }
    &[]
}

/// The members of the one farm of a file.
pub fn members_of_farm(top: &AnyNode) -> &[FarmMember] {
    match members_at(members_of(top), "farms") {
        [farm] => members_of(&farm.1),
        _ => &[],
    }
}
