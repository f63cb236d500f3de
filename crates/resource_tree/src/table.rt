// The table of a tree's nodes: found by hashing their paths, and seen in the order of the paths.
ghost use Rattle.std.specs.Prelude.{◌≡◌, ◌+◌, ◌<◌, ◌≤◌, [], IfOk, OnOk, OnErr, IsOk, length, map, option_copied};
ghost use Rattle.std.specs.BTreeMap.{insert_entry};
ghost use Rattle.std.specs.List.Sorted.{IsStrictlySortedBy};
ghost use Rattle.std.specs.Map.{keys_of, remove_entry};
ghost use Rattle.std.specs.Map.Iter.{deref_pair};
ghost use Rattle.resource_tree.specs.Content.{by_path, node_at, same_path};
ghost use Rattle.resource_tree.specs.Rows.{AreRowsOf};

use crate::nodes::Node;
use sp_base::{Mem, Path};
use std::alloc::Global;
use std::collections::HashMap;
use std::hash::RandomState;
use std::marker::Model;

/// Nodes at paths. Contracts see the entries in the order of their paths, and how many more fit.
#[derive(Drop)]
pub(crate) struct Nodes {
    pub(crate) map: HashMap<Path, Node, RandomState>,
}

impl Model for Nodes {
    ghost use Rattle.std.specs.HashMap.{spare};
    ghost use Rattle.resource_tree.specs.Content.{by_path};
    ghost use Rattle.resource_tree.specs.InOrder.{Entries, in_order};

    ghost Value = { Entries };

    ghost view = { λ t. record { entries = in_order by_path t.map.entries; room = spare t.map } };
}

impl Nodes {
    // The keys of the table's hashes are handed in, since authors pick the paths.
    pub(crate) fn new(alloc: Global, seeds: RandomState) -> Nodes
        ensures empty { result.entries ≡ [] }
    {
        Nodes {
            map: HashMap::with_hasher(alloc, seeds),
        }
    }

    pub(crate) fn len(&self) -> usize
        ensures len { result ≡ length self.now.entries }
        ensures ordered { IsStrictlySortedBy by_path (keys_of self.now.entries) }
    {
        self.map.len()
    }

    pub(crate) fn get(&self, path: &Path) -> Option<&Node>
        ensures value { option_copied result ≡ node_at self.now.entries path.now }
    {
        self.map.get(path)
    }

    // The nodes with their paths, as they lie.
    pub(crate) fn rows(&self, alloc: Global) -> Mem<Vec<(&Path, &Node)>>
        ensures { IfOk result (λ rows. AreRowsOf self.now.entries (map deref_pair rows.items)) }
    {
        let mut rows = Vec::with_capacity(alloc, self.map.len())?;
        for (path, node) in self.map.iter() {
            rows.push((path, node))?;
        }
        Ok(rows)
    }

    pub(crate) fn insert(&mut self, path: Path, node: Node) -> Mem<()>
        ensures entries { OnOk result (self.new.entries ≡ insert_entry by_path self.old.entries path node) }
        ensures ordered { IsStrictlySortedBy by_path (keys_of self.new.entries) }
        ensures err { OnErr result (self.new.entries ≡ self.old.entries) }
        ensures succeeds { 0 < self.old.room → IsOk result }
        ensures room { self.old.room ≤ self.new.room + 1 }
    {
        self.map.insert(path, node)?;
        Ok(())
    }

    // Puts a node at a path, with no memory.
    pub(crate) fn put_in_room(&mut self, path: Path, node: Node)
        requires { 0 < self.old.room }
        ensures entries { self.new.entries ≡ insert_entry by_path self.old.entries path node }
        ensures room { self.old.room ≤ self.new.room + 1 }
    {
        let _ = self.map.insert(path, node);
    }

    // Makes room for n more.
    pub(crate) fn make_room(&mut self, n: usize) -> Mem<()>
        ensures entries { self.new.entries ≡ self.old.entries }
        ensures ok { OnOk result (n ≤ self.new.room) }
        ensures room { self.old.room ≤ self.new.room }
    {
        self.map.reserve(n)?;
        Ok(())
    }

    // Takes the node at a path away, if there is one.
    pub(crate) fn remove(&mut self, path: &Path)
        ensures entries { self.new.entries ≡ remove_entry (same_path path.now) self.old.entries }
        ensures room { self.old.room ≤ self.new.room }
    {
        drop(self.map.remove(path));
    }
}
