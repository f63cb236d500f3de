// What a draft holds over its tree, as a patch of the tree.
ghost use Rattle.std.specs.Prelude.{◌≡◌, IfOk};
ghost use Rattle.resource_tree.specs.Patches.{patching};

use crate::Draft;
use crate::held::HeldEntry;
use indexmap::IndexMap;
use resource_tree::{Patch, Tree};
use sp_base::{Mem, Path};
use std::alloc::Global;
use std::hash::RandomState;

impl<'a> Draft<'a> {
    /// The patch that makes of the tree what the draft is to give.
    pub fn patch(self, alloc: Global) -> Mem<Patch>
        ensures { IfOk result (λ patch. patching self.entry.tree patch ≡ self.entry.content) }
    {
        let Draft {
            tree,
            entries,
            count: _,
        } = self;
        patch_of(alloc, tree, entries)
    }
}

fn patch_of(
    alloc: Global,
    tree: &Tree,
    entries: IndexMap<Path, HeldEntry, RandomState>,
) -> Mem<Patch>
    ensures { IfOk result (λ patch. patching tree.now patch ≡ patching tree.now entries.entries) }
{
    let _nodes = tree.len();
    let mut patch = Patch::new(alloc, tree.seeds());
    for (path, entry) in entries {
        let node = entry.into_patch_node(alloc)?;
        patch.put(path, node)?;
        let _paths = patch.len();
    }
    Ok(patch)
}
