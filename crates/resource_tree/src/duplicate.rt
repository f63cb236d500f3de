// A second tree like a first.
ghost use Rattle.std.specs.Prelude.{◌≡◌, IfOk, OnOk};
ghost use Rattle.std.specs.BTreeMap.{insert_entry};
ghost use Rattle.resource_tree.specs.Content.{by_path};

use crate::Tree;
use crate::nodes::Node;
use crate::table::Nodes;
use sp_base::{Mem, Path};
use std::alloc::Global;

impl Node {
    pub fn duplicate(&self, alloc: Global) -> Mem<Node>
        ensures { IfOk result (λ node. node ≡ self.now) }
    {
        Ok(Node {
            props: self.props.duplicate(alloc)?,
            kids: self.kids.duplicate(alloc)?,
        })
    }
}

impl Tree {
    pub fn duplicate(&self, alloc: Global) -> Mem<Tree>
        ensures { IfOk result (λ tree. tree ≡ self.now) }
    {
        Ok(Tree {
            nodes: copied(alloc, &self.nodes)?,
        })
    }
}

// A copy of the nodes.
fn copied(alloc: Global, nodes: &Nodes) -> Mem<Nodes>
    ensures { IfOk result (λ copy. copy.entries ≡ nodes.now.entries) }
{
    let mut copy = Nodes::new(alloc, *nodes.map.hasher());
    for (path, node) in &nodes.map {
        insert_copy(&mut copy, alloc, path, node)?;
    }
    Ok(copy)
}

// Adds a copy of a node at a path.
fn insert_copy(nodes: &mut Nodes, alloc: Global, path: &Path, node: &Node) -> Mem<()>
    ensures { OnOk result (nodes.new.entries ≡ insert_entry by_path nodes.old.entries path.now node.now) }
{
    nodes.insert(path.duplicate(alloc)?, node.duplicate(alloc)?)
}
