// The paths that the names of scripts and resources stand for.

ghost use Rattle.std.specs.Prelude.{◌≡◌, IfOk};
ghost use Rattle.sp_base.specs.Paths.{child_of};
ghost use Rattle.std.specs.Result.{result_ok};
ghost use Rattle.publisher.specs.Pages.{path_named};

use sp_base::{Mem, NoMemory, Path, PathFault, begins_with_byte};
use std::alloc::Global;

// The path with a name after it, where there is one.
fn below(alloc: Global, folder: &Path, name: &str) -> Mem<Option<Path>>
    ensures { IfOk result (λ o. o ≡ result_ok (child_of folder.now name.now)) }
{
    match folder.child(alloc, name) {
        Ok(path) => Ok(Some(path)),
        Err(PathFault::NoMemory) => Err(NoMemory),
        Err(_) => Ok(None),
    }
}

/// The path that a name stands for: the one that it spells, or one below a folder.
#[tactic(auto, unfolding(crate::specs::Pages::path_named))]
pub(crate) fn path_named(alloc: Global, folder: &Path, name: &str) -> Mem<Option<Path>>
    ensures { IfOk result (λ o. o ≡ path_named folder.now name.now) }
{
    if begins_with_byte(b'/', name.as_bytes()) {
        Path::read_or_none(alloc, name)
    } else {
        below(alloc, folder, name)
    }
}
