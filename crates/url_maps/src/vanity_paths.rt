// The vanity path that a text is.
ghost use Rattle.std.specs.Prelude.{◌≡◌, IfOk, None, codes, nat_eq};
ghost use Rattle.std.specs.Cmp.Lexicographic.{pointwise};
ghost use Rattle.resource_tree.specs.Content.{name_of};
ghost use Rattle.url_maps.specs.Claims.{IsIndexOf};
ghost use Rattle.url_maps.specs.Search.{IsOf};
ghost use Rattle.url_maps.specs.VanityPaths.{vanity_page};

use crate::MapIndex;
use crate::aliases::is_free;
use crate::pairs::{Pair, PairKind};
use resource_tree::Tree;
use sp_base::{Mem, Path, a_path_and_its_text};
use std::alloc::Global;

impl MapIndex {
    // The pair of a vanity path, if the tree has one with this prefix.
    pub(crate) fn vanity_path_of(
        &self,
        alloc: Global,
        tree: &Tree,
        prefix: &str,
    ) -> Mem<Option<Pair>>
        requires { IsIndexOf tree.now self.now }
        ensures { IfOk result (IsOf PairKind.VanityPath tree.now None prefix.now) }
    {
        a_path_and_its_text();
        let _ = tree.len();
        let Some(first) = self.vanity_paths.get(prefix).first() else {
            return Ok(None);
        };
        if !is_free(alloc, tree, prefix)? {
            return Ok(None);
        }
        let page = page_of(alloc, first)?;
        Ok(Some(Pair {
            kind: PairKind::VanityPath,
            target: page.text(alloc)?,
            away: None,
        }))
    }
}

// The page that a node with a vanity path stands for.
fn page_of(alloc: Global, path: &Path) -> Mem<Path>
    ensures { IfOk result (λ page. page ≡ vanity_page path.now) }
{
    if is_content(path) {
        path.parent(alloc)
    } else {
        path.duplicate(alloc)
    }
}

fn is_content(path: &Path) -> bool
    ensures { result ≡ pointwise nat_eq (name_of path.now) (codes "jcr:content") }
{
    path.name() == "jcr:content"
}
