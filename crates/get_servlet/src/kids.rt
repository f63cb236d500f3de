// The resources below a resource.
ghost use Rattle.std.specs.Prelude.{◌≡◌, ◌≢◌, IfOk, IfErr, Err};
ghost use Rattle.std.specs.Result.{result_ok};
ghost use Rattle.sp_base.specs.declared.path.PathFault.TheVariants.{NoMemory as out_of_memory};
ghost use Rattle.get_servlet.specs.Rendering.{kid_of_name, shown_kid, lists_kid};

use resource_tree::{Look, Res};
use sp_base::{Mem, NoMemory, Path, PathFault};
use std::alloc::Global;

/// A resource below another: its path, and what is seen there.
#[derive(Drop)]
pub struct Kid<'a> {
    pub path: Path,
    pub res: Res<'a>,
}

/// Whether the resource's list of kids has a name.
pub(crate) fn lists_kid(res: &Res<'_>, name: &str) -> bool
    ensures { result ≡ lists_kid res.now name.now }
{
    res.kids().iter().any(|kid| name == kid.text())
}

// The path that was made, if there is one: a path that is too deep is none, and no lack of memory.
fn path_of_result(made: Result<Path, PathFault>) -> Mem<Option<Path>>
    ensures value { IfOk result (λ path. path ≡ result_ok made) }
    ensures told { IfOk result (λ path. made ≢ Err out_of_memory) }
    ensures err { IfErr result (λ e. made ≡ Err out_of_memory) }
{
    match made {
        Ok(path) => Ok(Some(path)),
        Err(PathFault::NoMemory) => Err(NoMemory),
        Err(_) => Ok(None),
    }
}

/// What is seen under a name, below a path.
pub(crate) fn kid_of_name<'a, L: Look>(
    alloc: Global,
    look: &'a L,
    path: &Path,
    name: &str,
) -> Mem<Option<Kid<'a>>>
    ensures { IfOk result (λ kid. kid ≡ kid_of_name (L.seen look.now) path.now name.now) }
{
    let Some(path) = path_of_result(path.child(alloc, name))? else {
        return Ok(None);
    };
    match look.res(alloc, &path)? {
        Some(res) => Ok(Some(Kid { path, res })),
        None => Ok(None),
    }
}

/// The kid that a resource shows under a name, which no property has.
#[tactic(auto, unfolding(crate::specs::Rendering::shown_kid))]
pub(crate) fn shown_kid<'a, L: Look>(
    alloc: Global,
    look: &'a L,
    path: &Path,
    res: &Res<'_>,
    name: &str,
) -> Mem<Option<Kid<'a>>>
    ensures { IfOk result (λ kid. kid ≡ shown_kid (L.seen look.now) path.now res.now name.now) }
{
    if res.props().get(name).is_some() {
        return Ok(None);
    }
    kid_of_name(alloc, look, path, name)
}
