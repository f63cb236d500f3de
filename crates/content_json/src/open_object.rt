// An object of content of which some members were read.
ghost use Rattle.std.specs.Prelude.{◌≡◌, ◌++◌, ◌&&◌, false, not, IfOk, OnOk, filter, option_map, MatchOption};
ghost use Rattle.std.specs.BTreeSet.{contains_by};
ghost use Rattle.std.specs.Cmp.Lexicographic.{slice_cmp};
ghost use Rattle.std.specs.Ordering.{nat_cmp};
ghost use Rattle.content_json.specs.Names.{is_order, is_kid};
ghost use Rattle.content_json.specs.Faults.{has_good_order};
ghost use Rattle.content_json.specs.Parts.{IfHoldsMembers, IfHoldsFitMembers, Lists, NamesKids, listed_in, AddsPart, is_kid_part, kid_keys};

use crate::names::{ORDER, is_order};
use crate::part::{Part, Placed, Sprout};
use resource_tree::Node;
use sp_base::{Mem, Path, PropList, TextBuf, TextList, Value};
use std::alloc::Global;
use std::collections::{BTreeMap, BTreeSet};

/// What the members' values make of an object. Of several members of one name the last stays.
#[derive(Drop)]
pub(crate) struct OpenObject<'a> {
    members: BTreeMap<&'a str, Part>,
}

impl<'a> OpenObject<'a> {
    ghost use Rattle.std.specs.Prelude.{ℕ, IfOk, OnOk};
    ghost use Rattle.serde_json.specs.Data.{no_members};
    ghost use Rattle.sp_base.specs.Texts.{Segments};
    ghost use Rattle.content_json.specs.Parts.{HoldsMembers, TakesMemberIn, IsMadeOfMembers};

    pub(crate) fn new(alloc: Global) -> OpenObject<'a>
        ensures { (levels : ℕ) (path : Segments) → HoldsMembers levels path result no_members }
    {
        OpenObject {
            members: BTreeMap::new(alloc),
        }
    }

    /// Takes a member in, in place of a former one of its name.
    pub(crate) fn put(&mut self, name: &'a str, part: Part) -> Mem<()>
        ensures { OnOk result (TakesMemberIn name.entry.now part self.old self.new) }
    {
        drop(self.members.insert(name, part)?);
        Ok(())
    }

    /// What the object at a path makes of the one that it is a member of.
    pub(crate) fn into_part(self, alloc: Global, path: Path) -> Mem<Part>
        ensures { IfOk result (IsMadeOfMembers path self.entry) }
    {
        let Some(kids) = kids_in_order(alloc, &self.members)? else {
            return Ok(Part::Unfit);
        };
        let mut props = PropList::new(alloc);
        let mut below = Vec::new(alloc);
        for (name, part) in self.members {
            if !add_part(alloc, &mut props, &mut below, name, part)? {
                return Ok(Part::Unfit);
            }
        }
        let node = Node { props, kids };
        let top = Placed { path, node };
        Ok(Part::Kid(Box::new(alloc, Sprout { top, below })?))
    }
}

// Adds the value of a property, or the nodes of a kid. Answers whether the member is fit.
fn add_part(
    alloc: Global,
    props: &mut PropList,
    below: &mut Vec<Placed>,
    name: &str,
    part: Part,
) -> Mem<bool>
    ensures { IfOk result (AddsPart name.now part props.old props.new below.old.items below.new.items) }
{
    if is_order(name) {
        return Ok(true);
    }
    match part {
        Part::Nothing => Ok(true),
        Part::Value(value) => {
            props.put(alloc, name, value)?;
            Ok(true)
        }
        Part::Kid(sprout) => {
            let Sprout {
                top,
                below: mut more,
            } = Box::into_inner(sprout);
            below.push(top)?;
            below.append(&mut more)?;
            Ok(true)
        }
        Part::Unfit => Ok(false),
    }
}

// The texts of a list of texts.
fn listed_in(part: &Part) -> Option<&[TextBuf]>
    ensures { option_map (λ names. names.now) result ≡ listed_in part.now }
{
    match part {
        Part::Value(Value::Texts(names)) => Some(names.as_slice()),
        Part::Value(_) | Part::Nothing | Part::Kid(_) | Part::Unfit => None,
    }
}

// What `:order` lists. There is no answer where it is no list of texts.
fn listed_names<'m>(members: &'m BTreeMap<&str, Part>) -> Option<&'m [TextBuf]>
    ensures { IfHoldsMembers members.now (λ ms. MatchOption result (has_good_order ms ≡ false) (λ names. Lists ms names.now)) }
{
    match members.get(ORDER) {
        Some(part) => listed_in(part),
        None => Some(&[]),
    }
}

// Whether a member is a kid.
fn is_kid_part(name: &str, part: &Part) -> bool
    ensures { result ≡ is_kid_part name.now part.now }
{
    !is_order(name) && matches!(part, Part::Kid(_))
}

fn is_kid(members: &BTreeMap<&str, Part>, name: &str) -> bool
    ensures { IfHoldsFitMembers members.now (λ ms. result ≡ (not (is_order name.now) && is_kid ms name.now)) }
{
    match members.get(name) {
        Some(part) => is_kid_part(name, part),
        None => false,
    }
}

// The names of the kids, those first that `:order` lists. There is no answer where it lists another name, or one twice, or is no list.
fn kids_in_order(alloc: Global, members: &BTreeMap<&str, Part>) -> Mem<Option<TextList>>
    ensures { IfOk result (λ found. IfHoldsFitMembers members.now (λ ms. MatchOption found (has_good_order ms ≡ false) (NamesKids ms))) }
{
    let Some(listed) = listed_names(members) else {
        return Ok(None);
    };
    let mut first = BTreeSet::new(alloc);
    let mut names = TextList::new(alloc);
    for text in listed {
        let name = text.text();
        if !is_kid(members, name) {
            return Ok(None);
        }
        if !first.insert(name)? {
            return Ok(None);
        }
        names.push(TextBuf::of(alloc, name)?)?;
    }
    add_others(alloc, &mut names, members, &first)?;
    Ok(Some(names))
}

// Adds the names of the kids that aren't among the first.
fn add_others(
    alloc: Global,
    names: &mut TextList,
    members: &BTreeMap<&str, Part>,
    first: &BTreeSet<&str>,
) -> Mem<()>
    ensures { OnOk result (names.new ≡ names.old ++ filter (λ n. not (contains_by (λ k. slice_cmp nat_cmp n k.now) first.now)) (kid_keys members.now.entries)) }
{
    for (name, part) in members.iter() {
        if is_kid_part(name, part) && !first.contains(*name) {
            names.push(TextBuf::of(alloc, name)?)?;
        }
    }
    Ok(())
}
