// A patch over a tree, in room that is made before.
ghost use Rattle.std.specs.Prelude.{◌≡◌, ◌≤◌, ◌<◌, ◌+◌, IfErr, IfOk, OnErr, OnOk, length};
ghost use Rattle.std.specs.Map.{keys_of};
ghost use Rattle.std.specs.List.{IsDistinct};
ghost use Rattle.std.specs.Ordering.{eq_by_cmp};
ghost use Rattle.resource_tree.specs.Content.{by_path, IsGood, node_at};
ghost use Rattle.resource_tree.specs.Patches.{over, patching, patching_at};
ghost use Rattle.sp_base.specs.Texts.{Segments};

use crate::table::Nodes;
use crate::{Patch, PatchNode, Tree};
use sp_base::{Mem, Path};
use std::marker::Model;

/// A tree with room for some more nodes. Contracts see the content, and for how many there is room.
#[derive(Drop)]
pub struct RoomyTree {
    nodes: Nodes,
    n: usize,
}

impl Model for RoomyTree {
    ghost use Rattle.std.specs.Prelude.{◌≤◌};
    ghost use Rattle.resource_tree.specs.Content.{IsGood};
    ghost use Rattle.resource_tree.specs.InOrder.{Entries};

    ghost Value = { Entries };

    ghost view = { λ t. record { entries = t.nodes.entries; room = t.n } };

    ghost invariant = { λ t. IsGood t.nodes.entries × (t.n ≤ t.nodes.room) };
}

impl Tree {
    /// Puts a patch over the tree: makes the room, and then changes the tree.
    ///
    /// A POST gathers its patch, makes the room of whatever else it changes, and calls this; what
    /// comes after it takes no memory. Where the room of the tree is to be made first, it calls
    /// [`Tree::with_room`] and, once all other room is made, [`RoomyTree::take`].
    pub fn apply(&mut self, patch: Patch) -> Mem<()>
        requires { IsGood (patching self.old patch) }
        ensures ok { OnOk result (self.new ≡ patching self.old patch) }
        ensures look_ups { OnOk result ((q : Segments) → node_at self.new q ≡ patching_at self.old patch q) }
        ensures unchanged { OnErr result (self.new ≡ self.old) }
    {
        self.nodes.make_room(patch.len())?;
        put_all(&mut self.nodes, patch);
        Ok(())
    }

    /// Makes room for a patch. Out of memory, the tree comes back.
    pub fn with_room(self, patch: &Patch) -> Result<RoomyTree, Tree>
        ensures ok { IfOk result (λ t. (t.entries ≡ self) × (t.room ≡ length patch.now)) }
        ensures err { IfErr result (λ t. t ≡ self) }
    {
        let Tree { mut nodes } = self;
        let n = patch.len();
        match nodes.make_room(n) {
            Ok(()) => Ok(RoomyTree { nodes, n }),
            Err(_) => Err(Tree { nodes }),
        }
    }
}

impl RoomyTree {
    /// Puts a patch over the tree, with no memory.
    pub fn take(self, patch: Patch) -> Tree
        requires room { length patch ≤ self.room }
        requires good { IsGood (patching self.entries patch) }
        ensures after { result ≡ patching self.entries patch }
        ensures look_ups { (q : Segments) → node_at result q ≡ patching_at self.entries patch q }
    {
        let RoomyTree { mut nodes, n: _ } = self;
        put_all(&mut nodes, patch);
        Tree { nodes }
    }
}

fn put_all(nodes: &mut Nodes, patch: Patch)
    requires { length patch ≤ nodes.old.room }
    ensures after { nodes.new.entries ≡ patching nodes.old.entries patch }
    ensures once { IsDistinct (eq_by_cmp by_path) (keys_of patch) }
{
    for (path, node) in patch.entries {
        put_entry(nodes, path, node);
    }
}

// Puts one entry over the nodes, with no memory.
fn put_entry(nodes: &mut Nodes, path: Path, node: PatchNode)
    requires { 0 < nodes.old.room }
    ensures after { nodes.new.entries ≡ over nodes.old.entries path node }
    ensures room { nodes.old.room ≤ nodes.new.room + 1 }
{
    match node {
        PatchNode::Node(node) => nodes.put_in_room(path, node),
        PatchNode::Gone => nodes.remove(&path),
    }
}
