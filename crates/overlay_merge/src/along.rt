//! A tree seen with its resources merged, as one path asks for it.
ghost use Rattle.std.specs.Prelude.{◌≡◌, IfOk, true, false};
ghost use Rattle.overlay_merge.specs.Merged.{has_resource};
ghost use Rattle.overlay_merge.specs.Walk.{has_kid_node};

use crate::Layer;
use crate::kids::has_node;
use crate::layers::{ROOT_DEPTH, layers_of};
use crate::merging::has_resource;
use crate::reach::reach;
use crate::roots::is_merged_path;
use resource_tree::Tree;
use sp_base::{Mem, Path};
use std::alloc::Global;
use std::marker::Model;
use url_split::Known;

/// What is known of the paths along one, as its decomposition asks for it: where many dots stand below the deepest path that may be
/// known, each is a kid of that path, whose layers are found once.
#[derive(Drop)]
pub struct AlongView<'a> {
    tree: &'a Tree,
    deepest: Path,
    layers: Vec<Layer>,
}

impl<'a> Model for AlongView<'a> {
    ghost use Rattle.std.specs.Prelude.{◌≡◌};
    ghost use Rattle.resource_tree.specs.Content.{Content};
    ghost use Rattle.overlay_merge.specs.Layers.{layers_of};

    ghost Value = { Content };

    ghost view = { λ v. v.tree.now };

    ghost invariant = { λ v. v.layers.items ≡ layers_of v.tree.now v.deepest };
}

// The deepest path that may be known at the path that a text spells or above it, where they are merged.
fn deepest_merged(alloc: Global, tree: &Tree, text: &str) -> Mem<Path> {
    if !text.starts_with("/mnt/") {
        return Ok(Path::root(alloc));
    }
    match Path::read_or_none(alloc, text)? {
        Some(path) if is_merged_path(&path) => path.first(alloc, reach(alloc, tree, &path)?),
        _ => Ok(Path::root(alloc)),
    }
}

// Whether a node is a kid of one of the layers.
fn has_kid_node(alloc: Global, tree: &Tree, layers: &[Layer], name: &str) -> Mem<bool>
    ensures { IfOk result (λ b. b ≡ has_kid_node tree.now name.now layers.now) }
{
    // `len` says that each node's path is one.
    let _ = tree.len();
    for layer in layers {
        if has_node(alloc, tree, &layer.path, name)? {
            return Ok(true);
        }
    }
    Ok(false)
}

impl<'a> AlongView<'a> {
    /// A tree seen along the path that a text spells.
    pub fn of(alloc: Global, tree: &'a Tree, text: &str) -> Mem<AlongView<'a>>
        ensures { IfOk result (λ v. v ≡ tree.now) }
    {
        let deepest = deepest_merged(alloc, tree, text)?;
        let layers = layers_of(alloc, tree, &deepest)?;
        Ok(AlongView {
            tree,
            deepest,
            layers,
        })
    }

    // Whether a path is a kid of the deepest one, but of none of its layers: then nothing is known there.
    fn lacks(&self, alloc: Global, path: &Path) -> Mem<bool>
        ensures { IfOk result (λ b. b ≡ true → has_resource self.now path.now ≡ false) }
    {
        // `len` says that the parent of each node is there.
        let _ = self.tree.len();
        let depth = self.deepest.depth();
        if depth <= ROOT_DEPTH || path.depth() != depth + 1 || !path.is_under(&self.deepest) {
            return Ok(false);
        }
        let Some(name) = path.last() else {
            return Ok(false);
        };
        if !is_merged_path(path) {
            return Ok(false);
        }
        Ok(!has_kid_node(alloc, self.tree, &self.layers, name)?)
    }
}

impl Known for AlongView<'_> {
    ghost use Rattle.overlay_merge.specs.Merged.{has_resource};

    ghost known = { λ v. has_resource v };

    fn has(&self, alloc: Global, path: &Path) -> Mem<bool> {
        if self.lacks(alloc, path)? {
            return Ok(false);
        }
        has_resource(alloc, self.tree, path)
    }

    fn reach(&self, alloc: Global, path: &Path) -> Mem<usize> {
        reach(alloc, self.tree, path)
    }
}
