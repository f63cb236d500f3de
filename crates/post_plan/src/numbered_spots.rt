//! Which entries name the same spot: each spot is numbered once, by the index of the first entry that names it, and numbers are compared
//! from then on, however long the spots' paths are.
ghost use Rattle.std.specs.Prelude.{◌≡◌, ◌<◌, ◌==◌, ◌++◌, ◌∷◌, [], None, IfOk, OnOk, if◌then◌else◌, length, not, slice_index, unwrap_or};
ghost use Rattle.post_plan.specs.declared.spot.Spot.{Spot as NamedSpot};
ghost use Rattle.post_plan.specs.NumberedSpots.{first_indices, index_noted, noted_after, numbered};

use crate::Spot;
use crate::entries::Entry;
use sp_base::{Mem, Path};
use std::alloc::Global;
use std::collections::BTreeMap;
use std::marker::Model;

/// A spot as a key: whether it is relative to the node, and its path.
type SpotKey<'e> = (bool, &'e Path);

/// Entries that a list of them lends.
#[derive(Drop)]
pub struct LentEntries<'e, 'a> {
    entries: Vec<&'e Entry<'a>>,
}

impl<'e, 'a> Model for LentEntries<'e, 'a> {
    ghost use Rattle.std.specs.Prelude.{List, map};
    ghost use Rattle.post_plan.specs.Entries.{Entry as ContentEntry};

    ghost Value = { List ContentEntry };

    ghost view = { λ l. map (λ e. e.now) l.entries.items };
}

impl<'e, 'a> LentEntries<'e, 'a> {
    ghost use Rattle.std.specs.Prelude.{map};

    pub fn new(alloc: Global) -> LentEntries<'e, 'a>
        ensures { result ≡ [] }
    {
        LentEntries {
            entries: Vec::new(alloc),
        }
    }

    pub fn as_slice(&self) -> &[&'e Entry<'a>]
        ensures { map (λ e. e.now) result.now ≡ self.now }
    {
        self.entries.as_slice()
    }

    /// Adds an entry at the end.
    pub fn push(&mut self, entry: &'e Entry<'a>) -> Mem<()>
        ensures { OnOk result (self.new ≡ self.old ++ entry.entry.now ∷ []) }
    {
        self.entries.push(entry)?;
        Ok(())
    }
}

fn key_of<'e>(spot: &'e Spot) -> SpotKey<'e>
    ensures { (result.0 ≡ spot.entry.now.at_target) × (result.1.now ≡ spot.entry.now.path) }
{
    (spot.at_target, &spot.path)
}

// A spot that has no index yet gets this one.
fn new_index<'e>(first: &mut BTreeMap<SpotKey<'e>, usize>, spot: &'e Spot, n: usize) -> Mem<usize>
    requires { index_noted first.old spot.now ≡ None }
    ensures index { IfOk result (λ index. index ≡ unwrap_or (index_noted first.old spot.entry.now) n) }
    ensures noted { OnOk result ((other : NamedSpot) → index_noted first.new other ≡ noted_after (index_noted first.old) spot.entry.now n other) }
{
    first.insert(key_of(spot), n)?;
    Ok(n)
}

// The index that is noted for a spot; one that has none yet gets this one.
fn index_of<'e>(first: &mut BTreeMap<SpotKey<'e>, usize>, spot: &'e Spot, n: usize) -> Mem<usize>
    ensures index { IfOk result (λ index. index ≡ unwrap_or (index_noted first.old spot.entry.now) n) }
    ensures noted { OnOk result ((other : NamedSpot) → index_noted first.new other ≡ noted_after (index_noted first.old) spot.entry.now n other) }
{
    let key = key_of(spot);
    match first.get(&key).copied() {
        Some(index) => Ok(index),
        None => new_index(first, spot, n),
    }
}

/// Of each entry the index of the first that names the same spot.
pub fn first_indices(alloc: Global, entries: &[Entry]) -> Mem<Vec<usize>>
    ensures { IfOk result (λ indices. indices.items ≡ first_indices entries.now) }
{
    let mut first = BTreeMap::new(alloc);
    let mut indices = Vec::new(alloc);
    for n in 0..entries.len() {
        let entry = &entries[n];
        let index = index_of(&mut first, &entry.spot, n)?;
        indices.push(index)?;
    }
    Ok(indices)
}

// Adds an entry at the end, where its number is this one.
fn add_numbered<'e, 'a>(
    own: &mut LentEntries<'e, 'a>,
    entry: &'e Entry<'a>,
    index: usize,
    n: usize,
) -> Mem<()>
    ensures { OnOk result (own.new ≡ own.old ++ (if index == n then entry.entry.now ∷ [] else [])) }
{
    if index == n { own.push(entry) } else { Ok(()) }
}

/// The entries whose spot has this number.
pub fn numbered<'e, 'a>(
    alloc: Global,
    entries: &'e [Entry<'a>],
    indices: &[usize],
    n: usize,
) -> Mem<LentEntries<'e, 'a>>
    requires { indices.now ≡ first_indices entries.now }
    ensures { IfOk result (λ own. own ≡ numbered entries.entry.now n) }
{
    let mut own = LentEntries::new(alloc);
    for k in 0..entries.len() {
        add_numbered(&mut own, &entries[k], indices[k], n)?;
    }
    Ok(own)
}

/// Whether the entry at an index names a spot that one before it names too.
pub fn is_later(indices: &[usize], n: usize) -> bool
    requires { n < length indices.now }
    ensures { result ≡ not (slice_index indices.now n == n) }
{
    indices[n] != n
}
