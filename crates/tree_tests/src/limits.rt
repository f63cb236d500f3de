//! Parts that would make a tree too deep or too large.
use crate::nodes::{creates_all, path_at};
use crate::refusals::is_told;
use resource_tree::{Tree, TreeFault};
use sp_base::{Path, Value};
use std::alloc::Global;
use std::hash::RandomState;
use std::test::Fail;
use tree_draft::at_once;

const DEEPEST: &str =
    "/d/d/d/d/d/d/d/d/d/d/d/d/d/d/d/d/d/d/d/d/d/d/d/d/d/d/d/d/d/d/d/d/d/d/d/d/d/d/d/d/d/d/d/d/d/d/d/d/d/d/d/d/d/d/d/d/d/d/d/d/d/d/d/d";

fn creates_first(alloc: Global, tree: &mut Tree, path: &Path, levels: usize) -> bool {
    match path.first(alloc, levels) {
        Ok(path) => at_once::create(alloc, tree, &path).is_ok(),
        Err(_) => false,
    }
}

// Makes the nodes above a path.
fn creates_above(alloc: Global, tree: &mut Tree, path: &Path) -> bool {
    for levels in 1..path.depth() {
        if !creates_first(alloc, tree, path, levels) {
            return false;
        }
    }
    true
}

// Whether a part of two levels is refused at the deepest path.
fn is_too_deep(alloc: Global, tree: &mut Tree, source: &Path, deepest: &Path) -> bool {
    is_told(&at_once::copy_to(alloc, tree, source, deepest), "TooDeep")
        && is_told(&at_once::move_to(alloc, tree, source, deepest), "TooDeep")
}

fn is_taken_at(answer: &Result<(), TreeFault>, path: &Path) -> bool {
    matches!(answer, Err(TreeFault::Taken(taken)) if taken.as_text() == path.as_text())
}

// Whether the part is refused first for the property that is put in the deepest path's place.
fn is_taken_first(alloc: Global, tree: &mut Tree, source: &Path, deepest: &Path) -> bool {
    match deepest.parent(alloc) {
        Ok(above) => {
            at_once::set(alloc, tree, &above, "d", Value::Truth(true)).is_ok()
                && is_taken_at(&at_once::copy_to(alloc, tree, source, deepest), deepest)
                && is_taken_at(&at_once::move_to(alloc, tree, source, deepest), deepest)
        }
        Err(_) => false,
    }
}

fn keeps_levels(alloc: Global, tree: &mut Tree) -> bool {
    match (path_at(alloc, "/a"), path_at(alloc, DEEPEST)) {
        (Some(source), Some(deepest)) => {
            creates_all(alloc, tree, &["/a", "/a/b"])
                && creates_above(alloc, tree, &deepest)
                && is_too_deep(alloc, tree, &source, &deepest)
                && is_taken_first(alloc, tree, &source, &deepest)
        }
        _ => false,
    }
}

// Puts a copy of the part at the first path below it.
fn doubles(alloc: Global, tree: &mut Tree, first: &Path, second: &Path, name: &str) -> bool {
    match first.child(alloc, name) {
        Ok(below) => {
            at_once::copy_to(alloc, tree, first, second).is_ok()
                && at_once::move_to(alloc, tree, second, &below).is_ok()
        }
        Err(_) => false,
    }
}

const NAMES: &[&str] = &[
    "a", "b", "c", "d", "e", "f", "g", "h", "i", "j", "k", "l", "m", "n", "o", "p", "q",
];

// Each turn doubles the part, to 131,072 nodes.
fn doubles_all(alloc: Global, tree: &mut Tree, first: &Path, second: &Path) -> bool {
    for name in NAMES {
        if !doubles(alloc, tree, first, second, *name) {
            return false;
        }
    }
    true
}

fn is_only_moved(alloc: Global, tree: &mut Tree, first: &Path, second: &Path) -> bool {
    is_told(&at_once::copy_to(alloc, tree, first, second), "FullTree")
        && at_once::move_to(alloc, tree, first, second).is_ok()
        && tree.len() == 131_073
}

fn keeps_nodes(alloc: Global, tree: &mut Tree) -> bool {
    match (path_at(alloc, "/a"), path_at(alloc, "/b")) {
        (Some(first), Some(second)) => {
            creates_all(alloc, tree, &["/a"])
                && doubles_all(alloc, tree, &first, &second)
                && is_only_moved(alloc, tree, &first, &second)
        }
        _ => false,
    }
}

fn has_levels(alloc: Global, seeds: RandomState) -> bool {
    match Tree::new(alloc, seeds) {
        Ok(mut tree) => keeps_levels(alloc, &mut tree),
        Err(_) => false,
    }
}

fn has_nodes(alloc: Global, seeds: RandomState) -> bool {
    match Tree::new(alloc, seeds) {
        Ok(mut tree) => keeps_nodes(alloc, &mut tree),
        Err(_) => false,
    }
}

#[test]
fn a_part_grows_to_the_limits(rt: HostRuntime) -> Result<(), Fail> {
    let seeds = RandomState::new(&rt)?;
    assert!(rt; has_levels(rt.alloc(), seeds));
    assert!(rt; has_nodes(rt.alloc(), seeds));
    Ok(())
}
