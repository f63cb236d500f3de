//! Entries of a farm's lists that decide nothing.

use any_config::AnyNode;
use farm_members::{FarmMember, members_at, members_of, members_of_farm};
use sp_base::{Items, Mem, TextBuf};
use std::alloc::Global;

/// Why an entry of a list decides nothing.
#[derive(Clone, Copy, PartialEq, Eq, Drop)]
pub enum IdleCause {
    /// A later entry applies to all, and the last that applies decides.
    DecidedLater,
    /// The filter allows no path that it applies to.
    NotAdmitted,
}

/// An entry that decides nothing, by its list and its name.
#[derive(Drop)]
pub struct IdleEntry {
    pub list: TextBuf,
    pub name: TextBuf,
    pub cause: IdleCause,
}

pub type IdleEntryList = Items<IdleEntry>;

// The tests that an entry of the filter may have, and the one of an entry of another list.
const FILTER_TESTS: [&str; 8] = [
    "glob",
    "method",
    "url",
    "path",
    "selectors",
    "extension",
    "suffix",
    "query",
];

const TESTS: [&str; 1] = ["glob"];

fn tell_entry(
    told: &mut IdleEntryList,
    alloc: Global,
    list: &str,
    entry: &FarmMember,
    cause: IdleCause,
) -> Mem<()> {
    told.push(IdleEntry {
        list: TextBuf::of(alloc, list)?,
        name: TextBuf::of(alloc, entry.0.text())?,
        cause,
    })
}

// ---- what a later entry decides

fn is_word(node: &AnyNode, word: &str) -> bool {
    match node {
        AnyNode::Word(text) => text.text() == word,
        _ => false,
    }
}

// The member of a name that counts: a later one is passed over.
fn member_at<'a>(members: &'a [FarmMember], name: &str) -> Option<&'a AnyNode> {
    for member in members {
        if member.0.text() == name {
            return Some(&member.1);
        }
    }
    None
}

// Whether an entry plainly applies to all: each test that it has is the glob `*`. A pattern isn't looked into.
fn applies_to_all(entry: &FarmMember, tests: &[&str]) -> bool {
    let members = members_of(&entry.1);
    for test in tests {
        if let Some(node) = member_at(members, *test) {
            if !is_word(node, "*") {
                return false;
            }
        }
    }
    true
}

// How many entries stand before the last one that applies to all.
fn decided_count(entries: &[FarmMember], tests: &[&str]) -> usize {
    let mut count = 0;
    for index in 0..entries.len() {
        if applies_to_all(&entries[index], tests) {
            count = index;
        }
    }
    count
}

fn tell_decided(
    told: &mut IdleEntryList,
    alloc: Global,
    list: &str,
    tests: &[&str],
    entries: &[FarmMember],
) -> Mem<()> {
    for entry in entries.iter().take(decided_count(entries, tests)) {
        tell_entry(told, alloc, list, entry, IdleCause::DecidedLater)?;
    }
    Ok(())
}

// ---- what the filter admits

// The word under a name, if there is one. A pattern is none, so an entry with one may allow any beginning.
fn word_at<'a>(members: &'a [FarmMember], name: &str) -> Option<&'a str> {
    match member_at(members, name) {
        Some(AnyNode::Word(text)) => Some(text.text()),
        _ => None,
    }
}

// What each text that a glob matches begins with. It ends before a colon or an underscore, since a rule is asked for the path with
// namespaces mangled, and the filter for the one without.
fn beginning(glob: &str) -> &[u8] {
    let bytes = glob.as_bytes();
    for at in 0..bytes.len() {
        if matches!(bytes[at], b'*' | b'?' | b'[' | b':' | b'_') {
            return &bytes[..at];
        }
    }
    bytes
}

// Whether some text may begin with both.
fn may_agree(one: &[u8], other: &[u8]) -> bool {
    one.starts_with(other) || other.starts_with(one)
}

// Whether an entry of the filter may allow a path with this beginning.
fn may_allow(entry: &FarmMember, start: &[u8]) -> bool {
    let members = members_of(&entry.1);
    if word_at(members, "type") != Some("allow") {
        return false;
    }
    for name in ["url", "path"] {
        if let Some(glob) = word_at(members, name) {
            if !may_agree(beginning(glob), start) {
                return false;
            }
        }
    }
    true
}

fn is_admitted(filter: &[FarmMember], start: &[u8]) -> bool {
    for entry in filter {
        if may_allow(entry, start) {
            return true;
        }
    }
    false
}

fn tell_unmet(
    told: &mut IdleEntryList,
    alloc: Global,
    filter: &[FarmMember],
    list: &str,
    entries: &[FarmMember],
) -> Mem<()> {
    for entry in entries {
        if let Some(glob) = word_at(members_of(&entry.1), "glob") {
            if !is_admitted(filter, beginning(glob)) {
                tell_entry(told, alloc, list, entry, IdleCause::NotAdmitted)?;
            }
        }
    }
    Ok(())
}

/// The entries of a file's lists that decide nothing, as far as that is plain: by the order of each list, and by what the texts that a
/// glob matches begin with.
pub fn idle_entries(alloc: Global, top: &AnyNode) -> Mem<IdleEntryList> {
    let mut told = Items::new(alloc);
    let farm = members_of_farm(top);
    let filter = members_at(farm, "filter");
    let cache = members_at(farm, "cache");
    tell_decided(&mut told, alloc, "filter", &FILTER_TESTS, filter)?;
    for list in ["rules", "invalidate", "allowedClients", "ignoreUrlParams"] {
        tell_decided(&mut told, alloc, list, &TESTS, members_at(cache, list))?;
    }
    for list in ["rules", "invalidate"] {
        tell_unmet(&mut told, alloc, filter, list, members_at(cache, list))?;
    }
    Ok(told)
}
