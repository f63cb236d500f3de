//! Super types that lead in a circle.

use resource_tree::{Node, Tree};
use sp_base::{Items, Mem, Path, PathList};
use std::alloc::Global;
use type_chain::{TypeName, places};

/// How many super types are looked at, one after the other.
const MOST_TYPES: usize = 32;

fn super_type(node: &Node) -> Option<&str> {
    match node.props.text("sling:resourceSuperType") {
        Some(text) => Some(text.text()),
        None => None,
    }
}

// The first place of a type at which a node names a super type.
fn naming_place(alloc: Global, tree: &Tree, name: &str) -> Mem<Option<Path>> {
    let Some(name) = TypeName::read(alloc, name)? else {
        return Ok(None);
    };
    let all = places(alloc, &name)?;
    for place in all.as_slice() {
        if let Some(node) = tree.node(place) {
            if super_type(node).is_some() {
                return Ok(Some(place.duplicate(alloc)?));
            }
        }
    }
    Ok(None)
}

// The place that names the super type of the one that the node at a path names.
fn next_place(alloc: Global, tree: &Tree, path: &Path) -> Mem<Option<Path>> {
    let Some(node) = tree.node(path) else {
        return Ok(None);
    };
    match super_type(node) {
        Some(name) => naming_place(alloc, tree, name),
        None => Ok(None),
    }
}

// Whether the super types from the node at a path on lead back to it.
fn leads_back(alloc: Global, tree: &Tree, path: &Path) -> Mem<bool> {
    let mut at = path.duplicate(alloc)?;
    for _ in 0..MOST_TYPES {
        let Some(next) = next_place(alloc, tree, &at)? else {
            return Ok(false);
        };
        if next == *path {
            return Ok(true);
        }
        at = next;
    }
    Ok(false)
}

/// The places of types that are super types of themselves, in no order that is promised.
pub fn circling_types(alloc: Global, tree: &Tree) -> Mem<PathList> {
    let mut told = Items::new(alloc);
    let rows = tree.rows(alloc)?;
    for row in rows.as_slice() {
        if leads_back(alloc, tree, row.0)? {
            told.push(row.0.duplicate(alloc)?)?;
        }
    }
    Ok(told)
}
