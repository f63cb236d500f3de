// What a second structure over a tree is made of: its nodes with their paths, and the seeds of its hashes.
ghost use Rattle.std.specs.Prelude.{IfOk, map};
ghost use Rattle.std.specs.Map.Iter.{deref_pair};
ghost use Rattle.resource_tree.specs.Content.{IsGood};
ghost use Rattle.resource_tree.specs.Rows.{AreRowsOf};

use crate::Tree;
use crate::nodes::Node;
use sp_base::{Mem, Path};
use std::alloc::Global;
use std::hash::RandomState;

impl Tree {
    /// All nodes with their paths, lent, each once, in no order that is promised.
    pub fn rows(&self, alloc: Global) -> Mem<Vec<(&Path, &Node)>>
        ensures rows { IfOk result (λ rows. AreRowsOf self.now (map deref_pair rows.items)) }
        ensures good { IsGood self.now }
    {
        self.nodes.rows(alloc)
    }

    /// The seeds by which the tree's paths are hashed, for tables that stand beside it.
    pub fn seeds(&self) -> RandomState {
        *self.nodes.map.hasher()
    }
}
