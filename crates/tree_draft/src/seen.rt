// The node at a path as a draft shows it to a caller: a part of the promise. It is lent by the tree, where the draft leaves it as it is,
// or by what the draft holds there (held.rt), and a caller can't tell which.
ghost use Rattle.std.specs.Prelude.{◌≡◌, IfOk, map};

use crate::held::HeldNode;
use crate::kid_list::{copied, lent_names};
use resource_tree::Node;
use sp_base::{Mem, PropList, TextBuf};
use std::alloc::Global;
use std::marker::Model;

/// Who lends the node.
#[derive(Drop)]
pub(crate) enum LentNode<'a> {
    Kept(&'a Node),
    Changed(&'a HeldNode),
}

/// A node that a draft shows. Contracts see it as the node.
#[derive(Drop)]
pub struct DraftNode<'a> {
    seen: LentNode<'a>,
}

impl<'a> Model for DraftNode<'a> {
    ghost use Rattle.resource_tree.specs.declared.nodes.Node.{Node};
    ghost use Rattle.tree_draft.specs.Shown.{lent_node};

    ghost Value = { Node };

    ghost view = { λ n. lent_node n.seen };
}

impl<'a> DraftNode<'a> {
    pub(crate) fn kept(node: &'a Node) -> DraftNode<'a>
        ensures { result ≡ node.now }
    {
        DraftNode {
            seen: LentNode::Kept(node),
        }
    }

    pub(crate) fn changed(node: &'a HeldNode) -> DraftNode<'a>
        ensures { result ≡ node.now }
    {
        DraftNode {
            seen: LentNode::Changed(node),
        }
    }

    pub fn props(&self) -> &PropList
        ensures { result.now ≡ self.now.props }
    {
        match self.seen {
            LentNode::Kept(node) => &node.props,
            LentNode::Changed(node) => &node.props,
        }
    }

    /// The kids' names in their order.
    pub fn kids(&self, alloc: Global) -> Mem<Vec<&TextBuf>>
        ensures { IfOk result (λ kids. map (λ name. name.now) kids.items ≡ self.now.kids) }
    {
        match self.seen {
            LentNode::Kept(node) => lent_names(alloc, node.kids.as_slice()),
            LentNode::Changed(node) => node.kids.lent(alloc),
        }
    }

    pub(crate) fn duplicate(&self, alloc: Global) -> Mem<Node>
        ensures { IfOk result (λ n. n ≡ self.now) }
    {
        Ok(Node {
            props: self.props().duplicate(alloc)?,
            kids: copied(alloc, &self.kids(alloc)?)?,
        })
    }
}
