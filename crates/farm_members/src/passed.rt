//! Members that are passed over.

use crate::member_places::MemberPlaces;
use crate::members::{FarmMember, members_of};
use any_config::AnyNode;
use sp_base::{Items, Mem, TextBuf};
use std::alloc::Global;

// What is looked for in each group. Of `/name`, `/clientheaders`, `/renders` and `/docroot` nothing depends: the publisher and the
// folder of the pages are the program's own.
const OF_FILE: [&str; 2] = ["farms", "name"];

const OF_FARM: [&str; 5] = [
    "virtualhosts",
    "filter",
    "cache",
    "clientheaders",
    "renders",
];

const OF_CACHE: [&str; 7] = [
    "rules",
    "statfileslevel",
    "allowAuthorized",
    "invalidate",
    "allowedClients",
    "ignoreUrlParams",
    "docroot",
];

const OF_FILTER_ENTRY: [&str; 9] = [
    "type",
    "glob",
    "method",
    "url",
    "path",
    "selectors",
    "extension",
    "suffix",
    "query",
];

const OF_RULE: [&str; 2] = ["type", "glob"];

/// A member that is passed over: it has no meaning in its group, or an earlier one has its name.
#[derive(Drop)]
pub struct PassedMember {
    pub group: TextBuf,
    pub name: TextBuf,
    /// Its line, counted from 1.
    pub line: usize,
}

pub type PassedMemberList = Items<PassedMember>;

fn is_one_of(name: &str, names: &[&str]) -> bool {
    for known in names {
        if *known == name {
            return true;
        }
    }
    false
}

fn has_member(members: &[FarmMember], name: &str) -> bool {
    for member in members {
        if member.0.text() == name {
            return true;
        }
    }
    false
}

// A group of the file, and the number of its first member among all of them.
#[derive(Clone, Copy, Drop)]
struct Numbered<'a> {
    members: &'a [FarmMember],
    first: usize,
}

impl<'a> Numbered<'a> {
    // The members of a member of a group, which has this number.
    fn below(member: &'a FarmMember, number: usize) -> Numbered<'a> {
        Numbered {
            members: members_of(&member.1),
            first: number.saturating_add(1),
        }
    }

    // The first group of this name.
    fn at(self, places: &MemberPlaces, name: &str) -> Numbered<'a> {
        let mut number = self.first;
        for member in self.members {
            if member.0.text() == name {
                return Numbered::below(member, number);
            }
            number = places.after(number);
        }
        Numbered {
            members: &[],
            first: number,
        }
    }

    // The one farm of a file.
    fn farm(self, places: &MemberPlaces) -> Numbered<'a> {
        let farms = self.at(places, "farms");
        match farms.members {
            [farm] => Numbered::below(farm, farms.first),
            _ => Numbered {
                members: &[],
                first: farms.first,
            },
        }
    }
}

// What is told of a file.
#[derive(Drop)]
struct Telling {
    places: MemberPlaces,
    told: PassedMemberList,
}

impl Telling {
    // Tells the members of a group that are none of the known ones, or that have the name of an earlier one.
    fn tell_members(
        &mut self,
        alloc: Global,
        group: &str,
        known: &[&str],
        numbered: Numbered<'_>,
    ) -> Mem<()> {
        let members = numbered.members;
        let mut number = numbered.first;
        for place in 0..members.len() {
            let name = members[place].0.text();
            if !is_one_of(name, known) || has_member(&members[..place], name) {
                self.told.push(PassedMember {
                    group: TextBuf::of(alloc, group)?,
                    name: TextBuf::of(alloc, name)?,
                    line: self.places.line(number),
                })?;
            }
            number = self.places.after(number);
        }
        Ok(())
    }

    // The same of each entry of a list.
    fn tell_entries(
        &mut self,
        alloc: Global,
        group: &str,
        known: &[&str],
        entries: Numbered<'_>,
    ) -> Mem<()> {
        let mut number = entries.first;
        for entry in entries.members {
            self.tell_members(alloc, group, known, Numbered::below(entry, number))?;
            number = self.places.after(number);
        }
        Ok(())
    }

    fn tell_cache(&mut self, alloc: Global, cache: Numbered<'_>) -> Mem<()> {
        self.tell_members(alloc, "cache", &OF_CACHE, cache)?;
        for group in ["rules", "invalidate", "allowedClients", "ignoreUrlParams"] {
            let entries = cache.at(&self.places, group);
            self.tell_entries(alloc, group, &OF_RULE, entries)?;
        }
        Ok(())
    }
}

/// The members of a file that are passed over, in the order of the groups and in each in their own. The file reads as its text does.
pub fn passed_members(alloc: Global, text: &[u8], file: &AnyNode) -> Mem<PassedMemberList> {
    let mut telling = Telling {
        places: MemberPlaces::of(alloc, text)?,
        told: Items::new(alloc),
    };
    let top = Numbered {
        members: members_of(file),
        first: 0,
    };
    telling.tell_members(alloc, "the file", &OF_FILE, top)?;
    let farm = top.farm(&telling.places);
    telling.tell_members(alloc, "farm", &OF_FARM, farm)?;
    let filter = farm.at(&telling.places, "filter");
    telling.tell_entries(alloc, "filter", &OF_FILTER_ENTRY, filter)?;
    let cache = farm.at(&telling.places, "cache");
    telling.tell_cache(alloc, cache)?;
    Ok(telling.told)
}
