// The tree as a value: its making and its look-ups.
ghost use Rattle.std.specs.Prelude.{◌≡◌, IfOk, length, option_copied};
ghost use Rattle.resource_tree.specs.Content.{node_at, IsGood, new_content};

use crate::nodes::Node;
use crate::table::Nodes;
use sp_base::{Mem, Path};
use std::alloc::Global;
use std::hash::RandomState;
use std::marker::Model;

/// The content: a finite map from paths to nodes.
#[derive(Drop)]
pub struct Tree {
    pub(crate) nodes: Nodes,
}

impl Model for Tree {
    ghost use Rattle.resource_tree.specs.Content.{Content, IsGood};

    ghost Value = { Content };

    ghost view = { λ t. t.nodes.entries };

    ghost invariant = { λ t. IsGood t.nodes.entries };
}

impl Tree {
    /// A tree of the root alone, which has no property and no kid.
    /// The seeds key the hashes of the paths, which authors pick.
    pub fn new(alloc: Global, seeds: RandomState) -> Mem<Tree>
        ensures { IfOk result (λ tree. tree ≡ new_content) }
    {
        let mut nodes = Nodes::new(alloc, seeds);
        nodes.insert(Path::root(alloc), Node::empty(alloc))?;
        Ok(Tree { nodes })
    }

    /// The number of nodes, the root among them.
    pub fn len(&self) -> usize
        ensures len { result ≡ length self.now }
        ensures good { IsGood self.now }
    {
        self.nodes.len()
    }

    pub fn node(&self, path: &Path) -> Option<&Node>
        ensures { option_copied result ≡ node_at self.now path.now }
    {
        self.nodes.get(path)
    }
}
