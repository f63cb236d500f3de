// Patches: what is to stand at some paths of a tree.
ghost use Rattle.std.specs.Prelude.{◌≡◌, [], OnOk, OnErr, length, option_copied, option_map, slice_get};
ghost use Rattle.std.specs.Map.{keys_of};
ghost use Rattle.std.specs.Map.Iter.{deref_pair};
ghost use Rattle.std.specs.List.{IsDistinct};
ghost use Rattle.std.specs.Ordering.{eq_by_cmp};
ghost use Rattle.resource_tree.specs.Content.{by_path};
ghost use Rattle.resource_tree.specs.Patches.{entry_at, with_entry};

use crate::Node;
use indexmap::IndexMap;
use sp_base::{Mem, Path};
use std::alloc::Global;
use std::hash::RandomState;
use std::marker::Model;

/// What is to stand at a path: a node, or none.
#[derive(Drop)]
pub enum PatchNode {
    Node(Node),
    Gone,
}

/// A finite map from paths to what is to stand there. Contracts see its entries in the order in which
/// the paths were first put.
#[derive(Drop)]
pub struct Patch {
    pub(crate) entries: IndexMap<Path, PatchNode, RandomState>,
}

impl Model for Patch {
    ghost use Rattle.resource_tree.specs.Patches.{PatchEntries};

    ghost Value = { PatchEntries };

    ghost view = { λ p. p.entries.entries };
}

impl Patch {
    /// No entry. The seeds key the hashes of the paths, which authors pick.
    pub fn new(alloc: Global, seeds: RandomState) -> Patch
        ensures { result ≡ [] }
    {
        Patch {
            entries: IndexMap::with_hasher(alloc, seeds),
        }
    }

    /// The number of paths.
    pub fn len(&self) -> usize
        ensures len { result ≡ length self.now }
        ensures once { IsDistinct (eq_by_cmp by_path) (keys_of self.now) }
    {
        self.entries.len()
    }

    /// Sets what is to stand at a path.
    pub fn put(&mut self, path: Path, node: PatchNode) -> Mem<()>
        ensures ok { OnOk result (self.new ≡ with_entry self.old path node) }
        ensures err { OnErr result (self.new ≡ self.old) }
    {
        self.entries.insert(path, node)?;
        Ok(())
    }

    /// What is to stand at a path, where the patch has it.
    pub fn get(&self, path: &Path) -> Option<&PatchNode>
        ensures { option_copied result ≡ entry_at self.now path.now }
    {
        self.entries.get(path)
    }

    /// The entry at a place, counted from 0.
    pub fn at(&self, place: usize) -> Option<(&Path, &PatchNode)>
        ensures { option_map deref_pair result ≡ slice_get self.now place }
    {
        self.entries.get_index(place)
    }
}
