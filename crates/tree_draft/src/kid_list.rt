// The kids' names of a changed node.
ghost use Rattle.std.specs.Prelude.{◌≡◌, ◌≤◌, ◌++◌, ◌∷◌, [], List, IfOk, OnOk, map, length, insert};
ghost use Rattle.resource_tree.specs.Kids.{other_kids};
ghost use Rattle.tree_draft.specs.Falls as spec;

use crate::falls::Falls;
use sp_base::{Mem, TextBuf, TextList};
use std::alloc::Global;
use std::hash::RandomState;
use std::marker::Model;

/// The names of a node's kids in their order. A name falls away without a walk: it is noted, and passed over where the names are read.
/// It may come again after that, at the end.
#[derive(Drop)]
pub(crate) struct KidList {
    names: TextList,
    falls: Falls,
}

impl Model for KidList {
    ghost use Rattle.std.specs.Prelude.{List, length};
    ghost use Rattle.tree_draft.specs.Falls.{FellWithin, standing_names};
    ghost use Rattle.sp_base.specs.Texts.{Text};

    ghost Value = { List Text };

    ghost view = { λ k. standing_names k.falls 0 k.names };

    ghost invariant = { λ k. FellWithin (length k.names) k.falls };
}

impl KidList {
    pub(crate) fn new(alloc: Global, seeds: RandomState, names: TextList) -> KidList
        ensures { result ≡ names }
    {
        KidList {
            names,
            falls: Falls::new(alloc, seeds),
        }
    }

    /// Adds a name at the end.
    pub(crate) fn push(&mut self, name: TextBuf) -> Mem<()>
        ensures { OnOk result (self.new ≡ self.old ++ name ∷ []) }
    {
        self.names.push(name)?;
        Ok(())
    }

    /// Takes a name away.
    pub(crate) fn remove(&mut self, alloc: Global, name: &str) -> Mem<()>
        ensures { OnOk result (self.new ≡ other_kids name.now self.old) }
    {
        self.falls.note(alloc, name, self.names.len())?;
        Ok(())
    }

    /// The names.
    pub(crate) fn lent(&self, alloc: Global) -> Mem<Vec<&TextBuf>>
        ensures { IfOk result (λ lent. map (λ name. name.now) lent.items ≡ self.now) }
    {
        standing_names(alloc, &self.falls, self.names.as_slice())
    }

    /// The names in a list of their own.
    pub(crate) fn into_list(self, alloc: Global) -> Mem<TextList>
        ensures { IfOk result (λ names. names ≡ self) }
    {
        let KidList { names, falls } = self;
        if falls.is_empty() {
            return Ok(names);
        }
        copied(alloc, &standing_names(alloc, &falls, names.as_slice())?)
    }
}

/// The names of a list.
pub(crate) fn lent_names<'a>(alloc: Global, names: &'a [TextBuf]) -> Mem<Vec<&'a TextBuf>>
    ensures { IfOk result (λ lent. map (λ name. name.now) lent.items ≡ names.now) }
{
    let mut lent = Vec::new(alloc);
    for name in names {
        lent.push(name)?;
    }
    Ok(lent)
}

// The names of a list that stand. Where none fell away, none is looked up.
fn standing_names<'a>(alloc: Global, falls: &Falls, names: &'a [TextBuf]) -> Mem<Vec<&'a TextBuf>>
    ensures { IfOk result (λ lent. map (λ name. name.now) lent.items ≡ spec.standing_names falls.now 0 names.now) }
{
    if falls.is_empty() {
        return lent_names(alloc, names);
    }
    let mut lent = Vec::new(alloc);
    for place in 0..names.len() {
        push_standing(falls, place, &names[place], &mut lent)?;
    }
    Ok(lent)
}

// Adds the name at a place, where it stands.
fn push_standing<'a>(
    falls: &Falls,
    place: usize,
    name: &'a TextBuf,
    lent: &mut Vec<&'a TextBuf>,
) -> Mem<()>
    ensures { OnOk result (map (λ n. n.now) lent.new.items ≡ spec.with_standing falls.now place name.entry.now (map (λ n. n.now) lent.old.items)) }
{
    if falls.stands(place, name.text()) {
        lent.push(name)?;
    }
    Ok(())
}

// Adds copies of lent names.
fn push_copies(alloc: Global, list: &mut TextList, names: &[&TextBuf]) -> Mem<()>
    ensures { OnOk result (list.new ≡ list.old ++ map (λ name. name.now) names.now) }
{
    for name in names {
        list.push(name.duplicate(alloc)?)?;
    }
    Ok(())
}

/// Copies of lent names.
pub(crate) fn copied(alloc: Global, names: &[&TextBuf]) -> Mem<TextList>
    ensures { IfOk result (λ list. list ≡ map (λ name. name.now) names.now) }
{
    let mut list = TextList::new(alloc);
    push_copies(alloc, &mut list, names)?;
    Ok(list)
}

/// Copies of lent names, with one more at a place among them.
pub(crate) fn copied_with(
    alloc: Global,
    names: &[&TextBuf],
    place: usize,
    name: &str,
) -> Mem<TextList>
    requires { place ≤ length names.now }
    ensures { IfOk result (λ list. list ≡ insert (map (λ other. other.now) names.now) place name.now) }
{
    let mut list = copied(alloc, &names[..place])?;
    list.push(TextBuf::of(alloc, name)?)?;
    push_copies(alloc, &mut list, &names[place..])?;
    Ok(list)
}
