//! Which .stat files an invalidation touches.
ghost use Rattle.std.specs.Prelude.{◌≡◌, IfOk, take};
ghost use Rattle.std.specs.List.{prefix_len, take_while};
ghost use Rattle.sp_base.specs.Paths.{mangled_segs};
ghost use Rattle.cover_rules.specs.Coverage as spec;
ghost use Rattle.cover_rules.specs.Pages.{is_folder_segment};

use crate::Invalidation;
use crate::page::is_folder_segment;
use sp_base::{Mem, NoMemory, Path, PathFault, PathList, mangling_and_unmangling};
use std::alloc::Global;

/// The folders whose .stat files an invalidation touches, from the document root down: those above the handle, to the depth `level`.
/// The list ends before a folder with a dot in its name, or whose file name is too long, since no page can lie below it.
pub fn touched(alloc: Global, level: usize, inv: &Invalidation) -> Mem<PathList>
    ensures { IfOk result (λ folders. folders ≡ spec.touched_of level inv.now) }
{
    if inv.only {
        return Ok(PathList::new(alloc));
    }
    let most = level.min(inv.handle.depth().saturating_sub(1));
    let folder = folder_above(alloc, &inv.handle, most)?;
    lineage(alloc, &folder)
}

// The first segments of a path, mangled, as far as pages can lie in them.
fn folder_above(alloc: Global, path: &Path, most: usize) -> Mem<Path>
    ensures { IfOk result (λ p. p ≡ take_while is_folder_segment (take most (mangled_segs path.now))) }
{
    mangling_and_unmangling();
    let first = path.first(alloc, folder_depth(path, most))?;
    // The law speaks of paths, and that this is one is a clause of its depth.
    let _depth = first.depth();
    match first.mangled(alloc) {
        Ok(mangled) => Ok(mangled),
        Err(fault) => match fault {
            PathFault::NoMemory => Err(NoMemory),
            _ => unreachable!(),
        },
    }
}

// In how many of a path's first segments pages can lie.
fn folder_depth(path: &Path, most: usize) -> usize
    ensures { result ≡ prefix_len is_folder_segment (take most (mangled_segs path.now)) }
{
    match path.relative() {
        Some(rest) => rest
            .split('/')
            .take(most)
            .take_while(|segment| is_folder_segment(segment))
            .count(),
        None => 0,
    }
}

// A path's ancestors from the root down, and the path.
fn lineage(alloc: Global, path: &Path) -> Mem<PathList>
    ensures { IfOk result (λ paths. paths ≡ spec.lineage path.now) }
{
    let mut paths = PathList::new(alloc);
    for n in 0..path.depth() {
        paths.push(path.first(alloc, n)?)?;
    }
    paths.push(path.duplicate(alloc)?)?;
    Ok(paths)
}
