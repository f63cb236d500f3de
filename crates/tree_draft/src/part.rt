// The paths of a part of a content: of a node and all below it, found by the kids' names.
ghost use Rattle.std.specs.Prelude.{◌≡◌, ◌++◌, ◌&&◌, IfOk, OnOk, map, is_some, true};
ghost use Rattle.std.specs.List.{list_any};
ghost use Rattle.sp_base.specs.Paths.{is_under};
ghost use Rattle.sp_base.specs.Texts.{Segments};
ghost use Rattle.resource_tree.specs.Content.{IsTree, kid, node_at, same_path};
ghost use Rattle.resource_tree.specs.Changes.{kids_at};
ghost use Rattle.resource_tree.specs.Parts.{kids_below};

use crate::Draft;
use sp_base::{MOST_SEGMENTS, Mem, NoMemory, Path};
use std::alloc::Global;

// The most levels of a tree: the root's, and one for each segment of a path.
const MOST_LEVELS: usize = MOST_SEGMENTS + 1;

// The paths of the nodes at a path and under it.
pub(crate) fn paths_under(draft: &Draft, alloc: Global, path: &Path) -> Mem<Vec<Path>>
    requires tree { IsTree (node_at draft.now.content) }
    requires there { is_some (node_at draft.now.content path.now) ≡ true }
    ensures { IfOk result (λ paths. (q : Segments) → list_any (same_path q) paths.items ≡ (is_some (node_at draft.now.content q) && is_under q path.now)) }
{
    let mut paths = Vec::new(alloc);
    let mut level = Vec::new(alloc);
    level.push(path.duplicate(alloc)?)?;
    for _ in 0..MOST_LEVELS {
        let next = paths_of_kids(draft, alloc, &level)?;
        paths.append(&mut level)?;
        level = next;
    }
    Ok(paths)
}

// The paths of the kids of the nodes at some paths.
fn paths_of_kids(draft: &Draft, alloc: Global, level: &[Path]) -> Mem<Vec<Path>>
    requires { IsTree (node_at draft.now.content) }
    ensures { IfOk result (λ paths. paths.items ≡ kids_below draft.now.content level.now) }
{
    let mut paths = Vec::new(alloc);
    for path in level {
        push_kids(draft, alloc, path, &mut paths)?;
    }
    Ok(paths)
}

// Adds the paths of the kids of the node at a path.
fn push_kids(draft: &Draft, alloc: Global, path: &Path, paths: &mut Vec<Path>) -> Mem<()>
    requires { IsTree (node_at draft.now.content) }
    ensures { OnOk result (paths.new.items ≡ paths.old.items ++ map (kid path.now) (kids_at draft.now.content path.now)) }
{
    let Some(node) = draft.node(path) else {
        return Ok(());
    };
    let names = node.kids(alloc)?;
    for name in names.as_slice() {
        match path.child(alloc, name.text()) {
            Ok(below) => paths.push(below)?,
            // In a tree each kid has a path, so this is a lack of memory.
            Err(_) => return Err(NoMemory),
        }
    }
    Ok(())
}
