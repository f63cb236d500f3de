// The parts of a text within the content.
ghost use Rattle.std.specs.Prelude.{◌≡◌, IfOk};
ghost use Rattle.overlay_merge.specs.Merged.{has_resource};
ghost use Rattle.url_split.specs.Split.{split_of};

use overlay_merge::AlongView;
use resource_tree::Tree;
use sp_base::Mem;
use std::alloc::Global;
use url_split::{Parts, split};

/// The parts of a text, over the paths at which a resource is seen.
pub(crate) fn parts_of(alloc: Global, tree: &Tree, text: &str) -> Mem<Option<Parts>>
    ensures { IfOk result (λ parts. parts ≡ split_of (has_resource tree.now) text.now) }
{
    let view = AlongView::of(alloc, tree, text)?;
    split(alloc, &view, text)
}
