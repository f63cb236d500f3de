// Nodes that are gathered before they are a tree.
ghost use Rattle.std.specs.Prelude.{◌≡◌, [], OnOk, OnErr, length};
ghost use Rattle.std.specs.BTreeMap.{insert_entry};
ghost use Rattle.std.specs.List.Sorted.{IsStrictlySortedBy};
ghost use Rattle.std.specs.Map.{keys_of};
ghost use Rattle.resource_tree.specs.Content.{by_path, IsGood};

use crate::Tree;
use crate::nodes::Node;
use crate::table::Nodes;
use sp_base::{Mem, Path};
use std::alloc::Global;
use std::hash::RandomState;
use std::marker::Model;

/// A finite map from paths to nodes, of which nothing more is asked. Contracts see its entries in
/// the order of their paths.
///
/// A reader puts each node here once, whole, with one look-up in the table, and makes the tree of
/// it with [`Tree::of`].
#[derive(Drop)]
pub struct NodeMap {
    nodes: Nodes,
}

impl Model for NodeMap {
    ghost use Rattle.resource_tree.specs.Content.{Content};

    ghost Value = { Content };

    ghost view = { λ m. m.nodes.entries };
}

impl NodeMap {
    /// No node. The seeds key the hashes of the paths, which authors pick.
    pub fn new(alloc: Global, seeds: RandomState) -> NodeMap
        ensures { result ≡ [] }
    {
        NodeMap {
            nodes: Nodes::new(alloc, seeds),
        }
    }

    /// Puts a node at a path, in place of the one that is there.
    pub fn insert(&mut self, path: Path, node: Node) -> Mem<()>
        ensures ok { OnOk result (self.new ≡ insert_entry by_path self.old path node) }
        ensures err { OnErr result (self.new ≡ self.old) }
    {
        self.nodes.insert(path, node)
    }

    /// The number of paths.
    pub fn len(&self) -> usize
        ensures len { result ≡ length self.now }
        ensures ordered { IsStrictlySortedBy by_path (keys_of self.now) }
    {
        self.nodes.len()
    }
}

impl Tree {
    /// The tree of nodes that make one.
    pub fn of(nodes: NodeMap) -> Tree
        requires { IsGood nodes }
        ensures { result ≡ nodes }
    {
        Tree { nodes: nodes.nodes }
    }
}
