//! Scripts that no type of the content reaches, and types that no script renders.
ghost use Rattle.std.specs.Prelude.{◌≡◌, ◌&&◌, IfOk, is_some};
ghost use Rattle.sp_base.specs.Paths.{name_of};
ghost use Rattle.script_rank.specs.Ranking.{is_script_name, script_text};

use crate::scripts::is_script_path;
use resource_tree::{Node, Tree};
use script_rank::{is_script_name, script_text};
use sp_base::{Mem, Path, TextBuf};
use std::alloc::Global;
use std::collections::BTreeMap;
use type_chain::{ScriptPlaceList, chain_with_script_places};

/// Paths, each once, in their order.
pub type PathSet = BTreeMap<Path, ()>;

/// The texts of types, each with the least path of a resource that has it.
pub type TypeUses = BTreeMap<TextBuf, Path>;

fn add(set: &mut PathSet, alloc: Global, path: &Path) -> Mem<()> {
    if !set.contains_key(path) {
        set.insert(path.duplicate(alloc)?, ())?;
    }
    Ok(())
}

// Whether the node at a path is a script, wherever it stands: a type may be rooted anywhere.
fn has_script(alloc: Global, tree: &Tree, path: &Path) -> Mem<bool>
    ensures { IfOk result (λ has. has ≡ (is_script_name (name_of path.now) && is_some (script_text tree.now path.now))) }
{
    Ok(is_script_name(path.name()) && script_text(alloc, tree, path)?.is_some())
}

fn add_places(set: &mut PathSet, alloc: Global, places: &ScriptPlaceList) -> Mem<()> {
    for script_place in places.as_slice() {
        add(set, alloc, &script_place.place)?;
    }
    Ok(())
}

// The places of the types of all nodes.
fn places_in_use(alloc: Global, tree: &Tree) -> Mem<PathSet> {
    let mut set = BTreeMap::new(alloc);
    let rows = tree.rows(alloc)?;
    for row in rows.as_slice() {
        let chain = chain_with_script_places(alloc, tree, &row.1.props)?;
        add_places(&mut set, alloc, &chain.script_places)?;
    }
    Ok(set)
}

// Whether a path, or one above it, is in a set.
fn is_below_any(alloc: Global, set: &PathSet, path: &Path) -> Mem<bool> {
    for depth in 0..path.depth() {
        if set.contains_key(&path.first(alloc, depth)?) {
            return Ok(true);
        }
    }
    Ok(false)
}

/// The scripts below a search path that are below no place of a type that a resource has.
pub fn unreached_scripts(alloc: Global, tree: &Tree) -> Mem<PathSet> {
    let places = places_in_use(alloc, tree)?;
    let mut told = BTreeMap::new(alloc);
    let rows = tree.rows(alloc)?;
    for row in rows.as_slice() {
        if is_script_path(row.0)
            && has_script(alloc, tree, row.0)?
            && !is_below_any(alloc, &places, row.0)?
        {
            add(&mut told, alloc, row.0)?;
        }
    }
    Ok(told)
}

fn add_above(set: &mut PathSet, alloc: Global, path: &Path) -> Mem<()> {
    for depth in 0..path.depth() {
        add(set, alloc, &path.first(alloc, depth)?)?;
    }
    Ok(())
}

// The paths below which there are scripts.
fn paths_above_scripts(alloc: Global, tree: &Tree) -> Mem<PathSet> {
    let mut set = BTreeMap::new(alloc);
    let rows = tree.rows(alloc)?;
    for row in rows.as_slice() {
        if has_script(alloc, tree, row.0)? {
            add_above(&mut set, alloc, row.0)?;
        }
    }
    Ok(set)
}

fn has_any(set: &PathSet, places: &ScriptPlaceList) -> bool {
    for script_place in places.as_slice() {
        if set.contains_key(&script_place.place) {
            return true;
        }
    }
    false
}

// Whether a script stands below a place of a type of the node's chain.
fn is_rendered(alloc: Global, tree: &Tree, set: &PathSet, node: &Node) -> Mem<bool> {
    let chain = chain_with_script_places(alloc, tree, &node.props)?;
    Ok(has_any(set, &chain.script_places))
}

// Notes that the resource at a path has a type, where no lesser path is noted.
fn note_use(uses: &mut TypeUses, alloc: Global, name: &TextBuf, path: &Path) -> Mem<()> {
    if let Some(known) = uses.get(name) {
        if *known <= *path {
            return Ok(());
        }
    }
    uses.insert(name.duplicate(alloc)?, path.duplicate(alloc)?)?;
    Ok(())
}

/// The types that resources name and for which no script stands, neither below their own places nor below those of a super type.
pub fn unrendered_types(alloc: Global, tree: &Tree) -> Mem<TypeUses> {
    let above = paths_above_scripts(alloc, tree)?;
    let mut uses = BTreeMap::new(alloc);
    let rows = tree.rows(alloc)?;
    for row in rows.as_slice() {
        if let Some(name) = row.1.props.text("sling:resourceType") {
            if !is_rendered(alloc, tree, &above, row.1)? {
                note_use(&mut uses, alloc, name, row.0)?;
            }
        }
    }
    Ok(uses)
}
