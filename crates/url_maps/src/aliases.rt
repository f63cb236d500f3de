// The alias that a text is.
ghost use Rattle.std.specs.Prelude.{◌≡◌, IfOk, None};
ghost use Rattle.url_maps.specs.Claims.{IsIndexOf};
ghost use Rattle.url_maps.specs.Search.{IsOf, is_free};

use crate::MapIndex;
use crate::pairs::{Pair, PairKind};
use resource_tree::Tree;
use sp_base::{Mem, Path, a_path_and_its_text};
use std::alloc::Global;

impl MapIndex {
    // The pair of an alias, if the tree has one with this prefix.
    pub(crate) fn alias_of(&self, alloc: Global, tree: &Tree, prefix: &str) -> Mem<Option<Pair>>
        requires { IsIndexOf tree.now self.now }
        ensures { IfOk result (IsOf PairKind.Alias tree.now None prefix.now) }
    {
        a_path_and_its_text();
        let _ = tree.len();
        let Some(first) = self.aliases.get(prefix).first() else {
            return Ok(None);
        };
        if !is_free(alloc, tree, prefix)? {
            return Ok(None);
        }
        Ok(Some(Pair {
            kind: PairKind::Alias,
            target: first.text(alloc)?,
            away: None,
        }))
    }
}

// Whether a text spells a path at which no node is.
pub(crate) fn is_free(alloc: Global, tree: &Tree, text: &str) -> Mem<bool>
    ensures { IfOk result (λ is. is ≡ is_free tree.now text.now) }
{
    match Path::read_or_none(alloc, text)? {
        Some(path) => Ok(tree.node(&path).is_none()),
        None => Ok(false),
    }
}
