//! The tree that the tests change, and what stands in one.
use resource_tree::{Node, Tree};
use sp_base::{Path, TextBuf, Value};
use std::alloc::Global;
use std::hash::RandomState;
use tree_draft::at_once;

/// The path of a text that spells one.
pub(crate) fn path_at(alloc: Global, text: &str) -> Option<Path> {
    Path::read(alloc, text).ok()
}

fn creates(alloc: Global, tree: &mut Tree, path: &str) -> bool {
    match path_at(alloc, path) {
        Some(path) => at_once::create(alloc, tree, &path).is_ok(),
        None => false,
    }
}

/// Makes nodes in their order.
pub(crate) fn creates_all(alloc: Global, tree: &mut Tree, paths: &[&str]) -> bool {
    for path in paths {
        if !creates(alloc, tree, *path) {
            return false;
        }
    }
    true
}

fn sets_title(alloc: Global, tree: &mut Tree, path: &str) -> bool {
    match path_at(alloc, path) {
        Some(path) => at_once::set(alloc, tree, &path, "title", Value::Long(7)).is_ok(),
        None => false,
    }
}

const PATHS: &[&str] = &[
    "/a", "/a/z", "/a/b", "/a/z/y", "/c", "/c/k", "/d", "/d/e", "/d/f", "/d/g", "/d/h", "/m",
    "/m/n", "/m/n/b", "/m/n/b/c", "/m/n/b!", "/m/n/bc", "/m/nb",
];

/// The number of nodes of the tree that the tests change, with the root.
pub(crate) const COUNT: usize = 19;

fn filled(alloc: Global, mut tree: Tree) -> Option<Tree> {
    if creates_all(alloc, &mut tree, PATHS) && sets_title(alloc, &mut tree, "/a/z") {
        Some(tree)
    } else {
        None
    }
}

/// The tree that the tests change; one of its nodes has a title.
pub(crate) fn whole(alloc: Global, seeds: RandomState) -> Option<Tree> {
    match Tree::new(alloc, seeds) {
        Ok(tree) => filled(alloc, tree),
        Err(_) => None,
    }
}

// Whether these are the names of kids, each of one letter.
fn are_names(kids: &[TextBuf], letters: &str) -> bool {
    let mut both = kids.iter().zip(letters.as_bytes());
    kids.len() == letters.len()
        && both.all(|(kid, letter)| kid.text().as_bytes() == [*letter].as_slice())
}

// Whether a node has a property where a star stands before the letters, and none else.
fn is_node(node: &Node, letters: &str) -> bool {
    match letters.strip_prefix("*") {
        Some(letters) => node.props.len() == 1 && are_names(node.kids.as_slice(), letters),
        None => node.props.len() == 0 && are_names(node.kids.as_slice(), letters),
    }
}

/// A path, and the letters that are the names of its node's kids, after a star where it has a property; or that no node is there.
pub(crate) type Left<'a> = (&'a str, Option<&'a str>);

fn is_left(tree: &Tree, path: &Path, letters: Option<&str>) -> bool {
    match (tree.node(path), letters) {
        (Some(node), Some(letters)) => is_node(node, letters),
        (None, None) => true,
        _ => false,
    }
}

fn is_left_at(alloc: Global, tree: &Tree, row: &Left<'_>) -> bool {
    match path_at(alloc, row.0) {
        Some(path) => is_left(tree, &path, row.1),
        None => false,
    }
}

pub(crate) fn are_left(alloc: Global, tree: &Tree, rows: &[Left<'_>]) -> bool {
    for row in rows {
        if !is_left_at(alloc, tree, row) {
            return false;
        }
    }
    true
}

/// What stands in the tree that the tests change, but for the kids whose names have more letters.
pub(crate) const BEFORE: &[Left<'_>] = &[
    ("/", Some("acdm")),
    ("/a", Some("zb")),
    ("/a/z", Some("*y")),
    ("/a/z/y", Some("")),
    ("/a/b", Some("")),
    ("/c", Some("k")),
    ("/c/k", Some("")),
    ("/d", Some("efgh")),
    ("/d/e", Some("")),
    ("/d/f", Some("")),
    ("/d/g", Some("")),
    ("/d/h", Some("")),
    ("/m/n/b", Some("c")),
    ("/m/n/b/c", Some("")),
    ("/m/n/b!", Some("")),
    ("/m/n/bc", Some("")),
    ("/m/nb", Some("")),
];
