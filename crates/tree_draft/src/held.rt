// What a draft holds at a path that was changed: the node that is to stand there, which it owns and changes in place, or none.
// Scaffolding, which no caller sees: what a draft shows of a node, held or not, is a `DraftNode` (seen.rt).
ghost use Rattle.std.specs.Prelude.{◌≡◌, IfOk, option_copied, option_map};
ghost use Rattle.resource_tree.specs.Content.{empty_node};
ghost use Rattle.resource_tree.specs.declared.patch.PatchNode.TheVariants as patch_node;
ghost use Rattle.tree_draft.specs.Edits as edits;
ghost use Rattle.tree_draft.specs.Held as spec;

use crate::kid_list::KidList;
use resource_tree::{Node, PatchNode};
use sp_base::{Mem, PropList, TextList};
use std::alloc::Global;
use std::hash::RandomState;
use std::marker::Model;

/// A changed node, whose kids' names may fall away without a walk.
#[derive(Drop)]
pub(crate) struct HeldNode {
    pub(crate) props: PropList,
    pub(crate) kids: KidList,
}

impl Model for HeldNode {
    ghost use Rattle.resource_tree.specs.declared.nodes.Node.{Node};

    ghost Value = { Node };

    ghost view = { λ n. record { props = n.props; kids = n.kids } };
}

impl HeldNode {
    pub(crate) fn of(alloc: Global, seeds: RandomState, node: Node) -> HeldNode
        ensures { result ≡ node }
    {
        let Node { props, kids } = node;
        HeldNode {
            props,
            kids: KidList::new(alloc, seeds, kids),
        }
    }

    fn into_props(self) -> PropList
        ensures { result ≡ self.props }
    {
        let HeldNode { props, kids } = self;
        drop(kids);
        props
    }

    // The node with its kids' names in a list of their own.
    fn into_node(self, alloc: Global) -> Mem<Node>
        ensures { IfOk result (λ n. n ≡ self) }
    {
        let HeldNode { props, kids } = self;
        Ok(Node {
            props,
            kids: kids.into_list(alloc)?,
        })
    }
}

/// What is to stand at a path: a changed node, or none.
#[derive(Drop)]
pub(crate) struct HeldEntry {
    held: Option<HeldNode>,
}

impl Model for HeldEntry {
    ghost use Rattle.resource_tree.specs.declared.patch.PatchNode.{PatchNode};
    ghost use Rattle.tree_draft.specs.Held.{patch_entry};

    ghost Value = { PatchNode };

    ghost view = { λ r. patch_entry r.held };
}

impl HeldEntry {
    /// A changed node.
    pub(crate) fn of_held(node: HeldNode) -> HeldEntry
        ensures { result ≡ patch_node.Node node }
    {
        HeldEntry { held: Some(node) }
    }

    /// A node as it is.
    pub(crate) fn of(alloc: Global, seeds: RandomState, node: Node) -> HeldEntry
        ensures { result ≡ patch_node.Node node }
    {
        HeldEntry {
            held: Some(HeldNode::of(alloc, seeds, node)),
        }
    }

    /// A node without properties and kids.
    pub(crate) fn fresh(alloc: Global, seeds: RandomState) -> HeldEntry
        ensures { result ≡ patch_node.Node empty_node }
    {
        let node = Node {
            props: PropList::new(alloc),
            kids: TextList::new(alloc),
        };
        HeldEntry::of(alloc, seeds, node)
    }

    pub(crate) fn gone() -> HeldEntry
        ensures { result ≡ patch_node.Gone }
    {
        HeldEntry { held: None }
    }

    pub(crate) fn is_node(&self) -> bool
        ensures { result ≡ edits.is_node self.now }
    {
        self.held.is_some()
    }

    /// The node, where it isn't gone.
    pub(crate) fn held(&self) -> Option<&HeldNode>
        ensures { option_copied result ≡ spec.entry_node self.now }
    {
        self.held.as_ref()
    }

    pub(crate) fn into_held(self) -> Option<HeldNode>
        ensures { result ≡ spec.entry_node self }
    {
        self.held
    }

    /// The node's properties, where it isn't gone.
    pub(crate) fn into_props(self) -> Option<PropList>
        ensures { result ≡ option_map (λ n. n.props) (spec.entry_node self) }
    {
        match self.held {
            Some(node) => Some(node.into_props()),
            None => None,
        }
    }

    /// The entry as one of a patch.
    pub(crate) fn into_patch_node(self, alloc: Global) -> Mem<PatchNode>
        ensures { IfOk result (λ r. r ≡ self) }
    {
        match self.held {
            Some(node) => Ok(PatchNode::Node(node.into_node(alloc)?)),
            None => Ok(PatchNode::Gone),
        }
    }
}
