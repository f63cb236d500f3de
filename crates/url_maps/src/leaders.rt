// Of the nodes with one vanity path the one that it names, put before the others.
ghost use Rattle.std.specs.Prelude.{◌≡◌, ◌<◌, ◌∷◌, IfOk, cond, length, option_copied};
ghost use Rattle.std.specs.Ordering.{is_lt};
ghost use Rattle.resource_tree.specs.Patches.{patching_at};
ghost use Rattle.url_maps.specs.Claims.{cmp_by};
ghost use Rattle.url_maps.specs.Noting.{IsFirstOf, PutsLeaderFirst, others};
ghost use Rattle.url_maps.specs.VanityPaths.{order_of};

use crate::siblings::node_after;
use crate::words::number;
use resource_tree::{Node, Patch, Tree};
use sp_base::{Mem, Path, PathList};
use std::alloc::Global;
use std::cmp::Ordering;

// Puts the one of some paths before which none is before the others, in a tree with a patch over it.
pub(crate) fn put_leader_first(
    alloc: Global,
    tree: &Tree,
    patch: &Patch,
    paths: PathList,
) -> Mem<PathList>
    ensures { IfOk result (PutsLeaderFirst (patching_at tree.now patch.now) paths) }
{
    if paths.len() < 2 {
        return Ok(paths);
    }
    let first = first_of(tree, patch, paths.as_slice());
    Ok(led_by(alloc, paths.as_slice(), first)?)
}

// A path, and then those of some paths that are another one.
fn led_by(alloc: Global, paths: &[Path], first: &Path) -> Mem<PathList>
    ensures { IfOk result (λ list. list ≡ first.now ∷ others first.now paths.now) }
{
    let mut list = PathList::new(alloc);
    list.push(first.duplicate(alloc)?)?;
    for path in paths {
        if path != first {
            list.push(path.duplicate(alloc)?)?;
        }
    }
    Ok(list)
}

// The one of some paths before which none is.
fn first_of<'a>(tree: &Tree, patch: &Patch, paths: &'a [Path]) -> &'a Path
    requires { 0 < length paths.now }
    ensures { IsFirstOf (patching_at tree.now patch.now) paths.now result.now }
{
    let mut first = &paths[0];
    for path in paths {
        first = earlier(tree, patch, path, first);
    }
    first
}

// The one of two paths that is before the other: the second, unless the first is before it.
fn earlier<'a>(tree: &Tree, patch: &Patch, path: &'a Path, first: &'a Path) -> &'a Path
    ensures { result.now ≡ cond (is_lt (cmp_by (patching_at tree.entry.now patch.entry.now) path.entry.now first.entry.now)) path.entry.now first.entry.now }
{
    if vanity_cmp(tree, patch, path, first).is_lt() {
        path
    } else {
        first
    }
}

// The order of nodes with one vanity path: the greater number is before the less, and then the path by the bytes of its text.
fn vanity_cmp(tree: &Tree, patch: &Patch, path: &Path, other: &Path) -> Ordering
    ensures { result ≡ cmp_by (patching_at tree.now patch.now) path.now other.now }
{
    order_of(node_after(tree, patch, other))
        .cmp(&order_of(node_after(tree, patch, path)))
        .then(path.as_text().cmp(other.as_text()))
}

fn order_of(node: Option<&Node>) -> i64
    ensures { result ≡ order_of (option_copied node.entry) }
{
    match node {
        Some(node) => number(node.props.get("sling:vanityOrder")).unwrap_or(0),
        None => 0,
    }
}
