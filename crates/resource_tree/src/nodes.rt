// The nodes of a tree.
ghost use Rattle.std.specs.Prelude.{◌≡◌};
ghost use Rattle.resource_tree.specs.Content.{empty_node};

use sp_base::{PropList, TextList};
use std::alloc::Global;

/// The most nodes of a tree.
pub const MOST_NODES: usize = 200_000;

/// A node: its properties in the order of their names, and the names of its kids in their order.
#[derive(Drop)]
pub struct Node {
    pub props: PropList,
    pub kids: TextList,
}

impl Node {
    pub(crate) fn empty(alloc: Global) -> Node
        ensures { result ≡ empty_node }
    {
        Node {
            props: PropList::new(alloc),
            kids: TextList::new(alloc),
        }
    }
}
