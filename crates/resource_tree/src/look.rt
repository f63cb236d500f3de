// What a tree, or what stands over one, shows at a path.
ghost use Rattle.std.specs.Prelude.{◌≡◌, IfOk};
ghost use Rattle.resource_tree.specs.Seen.{Seen, Resource, res_of};
ghost use Rattle.resource_tree.specs.Shown.{node_shown};

use crate::{Node, Tree};
use sp_base::{Mem, Path, PropList, TextBuf};
use std::alloc::Global;
use std::marker::Model;

/// The node that a resource shows: lent by the tree where it is shown as it is.
#[derive(Drop)]
pub enum Shown<'a> {
    Lent(&'a Node),
    Owned(Node),
}

/// A resource: what is seen at a path.
#[derive(Drop)]
pub struct Res<'a> {
    path: Path,
    shown: Shown<'a>,
}

impl<'a> Model for Res<'a> {
    ghost use Rattle.resource_tree.specs.Seen.{Resource, res_of};
    ghost use Rattle.resource_tree.specs.Shown.{node_shown};

    ghost Value = { Resource };

    ghost view = { λ r. res_of r.path (node_shown r.shown) };
}

impl<'a> Res<'a> {
    /// A node of a tree, as the resource at a path.
    pub fn lent(path: Path, node: &'a Node) -> Res<'a>
        ensures { result ≡ res_of path node.now }
    {
        Res {
            path,
            shown: Shown::Lent(node),
        }
    }

    /// A node of the resource's own, as the resource at a path.
    pub fn owned(path: Path, node: Node) -> Res<'a>
        ensures { result ≡ res_of path node }
    {
        Res {
            path,
            shown: Shown::Owned(node),
        }
    }

    pub fn path(&self) -> &Path
        ensures { result.now ≡ self.now.path }
    {
        &self.path
    }

    pub fn props(&self) -> &PropList
        ensures { result.now ≡ self.now.props }
    {
        &shown_node(&self.shown).props
    }

    pub fn kids(&self) -> &[TextBuf]
        ensures { result.now ≡ self.now.kids }
    {
        shown_node(&self.shown).kids.as_slice()
    }
}

// The node, whoever owns it.
fn shown_node<'a>(shown: &'a Shown<'_>) -> &'a Node
    ensures { result.now ≡ node_shown shown.now }
{
    match shown {
        Shown::Lent(node) => *node,
        Shown::Owned(node) => node,
    }
}

/// Looks resources up by their paths.
pub trait Look {
    /// The resource at a path, if there is one.
    ghost seen: { Self → Seen };

    fn res(&self, alloc: Global, path: &Path) -> Mem<Option<Res<'_>>>
        ensures { IfOk result (λ o. o ≡ seen self.now path.now) };
}

impl Look for Tree {
    ghost use Rattle.resource_tree.specs.Seen.{res_at};

    ghost seen = { res_at };

    /// The node at the path, as it is.
    fn res(&self, alloc: Global, path: &Path) -> Mem<Option<Res<'_>>> {
        let Some(node) = self.node(path) else {
            return Ok(None);
        };
        Ok(Some(Res::lent(path.duplicate(alloc)?, node)))
    }
}
