//! The places of a type below the search paths.
ghost use Rattle.std.specs.Prelude.{◌≡◌, ◌≢◌, ◌∷◌, ◌++◌, true, IfOk, IfErr, OnOk, Ok, Err, find, is_some};
ghost use Rattle.sp_base.specs.Paths.{path_or_fault, seg_ok};
ghost use Rattle.resource_tree.specs.Content.{node_at};
ghost use Rattle.type_chain.specs.Types.{path_with, place_of, places};

use crate::TypeName;
use resource_tree::Tree;
use sp_base::{Mem, NoMemory, Path, PathFault, PathList};
use std::alloc::Global;

/// The places of a type, below which its scripts lie: below each of the search paths, /apps before /libs. A rooted type is its own
/// place.
#[tactic(auto, unfolding(crate::specs::Types::places))]
pub fn places(alloc: Global, name: &TypeName) -> Mem<PathList>
    ensures { IfOk result (λ list. list ≡ places name.now) }
{
    let mut list = PathList::new(alloc);
    if name.rooted {
        list.push(name.segs.duplicate(alloc)?)?;
    } else {
        add_place(alloc, &mut list, "apps", &name.segs)?;
        add_place(alloc, &mut list, "libs", &name.segs)?;
    }
    Ok(list)
}

// Adds the place below a search path, where it is not too deep.
fn add_place(alloc: Global, list: &mut PathList, top: &str, segs: &Path) -> Mem<()>
    requires { seg_ok top.now ≡ true }
    ensures { OnOk result (list.new ≡ list.old ++ path_with (path_or_fault (top.now ∷ segs.now))) }
{
    match place_below(alloc, top, segs) {
        Ok(place) => list.push(place),
        Err(PathFault::NoMemory) => Err(NoMemory),
        Err(_) => Ok(()),
    }
}

fn place_below(alloc: Global, top: &str, segs: &Path) -> Result<Path, PathFault>
    requires { seg_ok top.now ≡ true }
    ensures ok { IfOk result (λ p. path_or_fault (top.now ∷ segs.now) ≡ Ok p) }
    ensures err { IfErr result (λ e. e ≢ PathFault.NoMemory → path_or_fault (top.now ∷ segs.now) ≡ Err e) }
{
    Path::root(alloc).child(alloc, top)?.join(alloc, segs)
}

/// The first place at which there is a node, of the type that a text names.
#[tactic(auto, unfolding(crate::specs::Types::place_of))]
pub fn place_of(alloc: Global, tree: &Tree, name: &str) -> Mem<Option<Path>>
    ensures { IfOk result (λ o. o ≡ place_of tree.now name.now) }
{
    match TypeName::read(alloc, name)? {
        Some(name) => first_node(alloc, tree, &places(alloc, &name)?),
        None => Ok(None),
    }
}

fn first_node(alloc: Global, tree: &Tree, list: &PathList) -> Mem<Option<Path>>
    ensures { IfOk result (λ o. o ≡ find (λ place. is_some (node_at tree.now place)) list.now) }
{
    for place in list.as_slice() {
        if tree.node(place).is_some() {
            return Ok(Some(place.duplicate(alloc)?));
        }
    }
    Ok(None)
}
