// The content as it is lent while an answer is made.
ghost use Rattle.std.specs.Prelude.{◌≡◌, IfOk};
ghost use Rattle.type_chain.specs.Chain.{chain_of};
ghost use Rattle.script_rank.specs.Search.{search_result as first_script};
ghost use Rattle.publisher.specs.Kept.{AreIndexesFor};

use crate::kept_index::{Indexes, script_by_index};
use resource_tree::Tree;
use sp_base::{Mem, Path, PropList};
use std::alloc::Global;
use std::marker::Model;
use url_split::Parts;

/// A content tree with its indexes, lent while an answer is made. Contracts see the tree.
#[derive(Drop)]
pub(crate) struct LentContent<'p> {
    tree: &'p Tree,
    indexes: &'p Option<Indexes>,
}

impl<'p> Model for LentContent<'p> {
    ghost use Rattle.resource_tree.specs.Content.{Content};
    ghost use Rattle.publisher.specs.Kept.{AreIndexesFor};

    ghost Value = { Content };

    ghost view = { λ c. c.tree.now };

    ghost invariant = { λ c. AreIndexesFor c.tree.now c.indexes.now };
}

impl<'p> LentContent<'p> {
    pub(crate) fn of(tree: &'p Tree, indexes: &'p Option<Indexes>) -> LentContent<'p>
        requires { AreIndexesFor tree.now indexes.now }
        ensures { result ≡ tree.now }
    {
        LentContent { tree, indexes }
    }

    pub(crate) fn tree(&self) -> &Tree
        ensures { result.now ≡ self.now }
    {
        self.tree
    }

    /// The script that ranks first for a resource with these properties.
    pub(crate) fn first_script(
        &self,
        alloc: Global,
        props: &PropList,
        parts: &Parts,
    ) -> Mem<Option<Path>>
        ensures { IfOk result (λ o. o ≡ first_script self.now (chain_of self.now props.now) parts.now) }
    {
        script_by_index(alloc, self.tree, self.indexes, props, parts)
    }
}
