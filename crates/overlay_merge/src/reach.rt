// How deep what is seen reaches along a path.
ghost use Rattle.std.specs.Prelude.{◌≡◌, ◌≤◌, ◌+◌, true, false, length, take, IfOk};
ghost use Rattle.sp_base.specs.Paths.{is_under, parent_of};
ghost use Rattle.sp_base.specs.Texts.{Segments};
ghost use Rattle.overlay_merge.specs.Roots.{is_merged_path};
ghost use Rattle.overlay_merge.specs.Layers.{has_node, layers_of};
ghost use Rattle.overlay_merge.specs.Merged.{has_resource};

use crate::layers::{ROOT_DEPTH, has_node, layers_of};
use crate::roots::is_merged_path;
use resource_tree::Tree;
use sp_base::{Mem, Path};
use std::alloc::Global;

/// The most bytes of a path along which a look for nodes costs more than what it saves: it may be cut in few places.
const SHORT_PATH: usize = 128;

// The number of segments of the deepest node at a path or above it: below it no node is the last of its line.
fn deepest_node(alloc: Global, tree: &Tree, path: &Path) -> Mem<usize>
    requires { is_merged_path path.now ≡ false }
    ensures { IfOk result (λ n. (other : Segments) → has_resource tree.now other ≡ true → is_under path.now (parent_of other) ≡ true → length other ≤ n + 1) }
{
    // `len` says that the parent of each node is there.
    let _ = tree.len();
    let depth = path.depth();
    for missing in 0..depth {
        if tree.node(&path.first(alloc, depth - missing)?).is_some() {
            return Ok(depth - missing);
        }
    }
    Ok(0)
}

// Whether a node is at one of the layers of a path's first `n` segments.
fn has_node_at(alloc: Global, tree: &Tree, path: &Path, n: usize) -> Mem<bool>
    ensures { IfOk result (λ b. b ≡ has_node tree.now (layers_of tree.now (take n path.now))) }
{
    let layers = layers_of(alloc, tree, &path.first(alloc, n)?)?;
    Ok(has_node(tree, &layers))
}

// The number of segments of the deepest path, at a merged one or above it, that has a layer at which a node is. A path has such a
// layer wherever a kid of it has, so halving finds the last.
fn deepest_layer(alloc: Global, tree: &Tree, path: &Path) -> Mem<usize>
    requires { is_merged_path path.now ≡ true }
    ensures { IfOk result (λ n. (other : Segments) → has_resource tree.now other ≡ true → is_under path.now (parent_of other) ≡ true → length other ≤ n + 1) }
{
    // `len` says that the parent of each node is there.
    let _ = tree.len();
    let mut low = ROOT_DEPTH;
    let mut high = path.depth().max(ROOT_DEPTH);
    while low < high {
        let middle = low + (high - low) / 2;
        if has_node_at(alloc, tree, path, middle + 1)? {
            low = middle + 1;
        } else {
            high = middle;
        }
    }
    Ok(high)
}

/// How deep it is worth to look along a path for what is seen.
pub(crate) fn reach(alloc: Global, tree: &Tree, path: &Path) -> Mem<usize>
    ensures { IfOk result (λ n. (other : Segments) → has_resource tree.now other ≡ true → is_under path.now (parent_of other) ≡ true → length other ≤ n + 1) }
{
    if is_merged_path(path) {
        return deepest_layer(alloc, tree, path);
    }
    if path.as_text().len() <= SHORT_PATH {
        return Ok(path.depth());
    }
    deepest_node(alloc, tree, path)
}
