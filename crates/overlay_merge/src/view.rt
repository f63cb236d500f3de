//! A tree seen with its overlays and overrides merged.

use crate::merging::{has_resource, merged};
use crate::reach::reach;
use resource_tree::{Look, Res, Tree};
use sp_base::{Mem, Path};
use std::alloc::Global;
use url_split::Known;

/// A tree, seen with its overlays and overrides merged.
#[derive(Drop)]
pub struct MergedView<'a> {
    pub tree: &'a Tree,
}

impl Look for MergedView<'_> {
    ghost use Rattle.overlay_merge.specs.Merged.{merged_resource};

    ghost seen = { λ view. merged_resource view.tree.now };

    /// The merged resource at the path.
    fn res(&self, alloc: Global, path: &Path) -> Mem<Option<Res<'_>>> {
        merged(alloc, self.tree, path)
    }
}

impl Known for MergedView<'_> {
    ghost use Rattle.overlay_merge.specs.Merged.{has_resource};

    ghost known = { λ view. has_resource view.tree.now };

    fn has(&self, alloc: Global, path: &Path) -> Mem<bool> {
        has_resource(alloc, self.tree, path)
    }

    fn reach(&self, alloc: Global, path: &Path) -> Mem<usize> {
        reach(alloc, self.tree, path)
    }
}
