//! Changes that are refused, each with its cause.
use crate::changes::change;
use crate::nodes::{BEFORE, COUNT, are_left, path_at, whole};
use resource_tree::{Tree, TreeFault};
use sp_base::Path;
use std::alloc::Global;
use std::hash::RandomState;
use std::test::Fail;

// A refusal as its name and its path.
fn parts_of(answer: &Result<(), TreeFault>) -> (&str, Option<&Path>) {
    match answer {
        Ok(()) => ("Ok", None),
        Err(TreeFault::NoSuch(path)) => ("NoSuch ", Some(path)),
        Err(TreeFault::RootFixed) => ("RootFixed", None),
        Err(TreeFault::IntoItself) => ("IntoItself", None),
        Err(TreeFault::TooDeep) => ("TooDeep", None),
        Err(TreeFault::Exists(path)) => ("Exists ", Some(path)),
        Err(TreeFault::Taken(path)) => ("Taken ", Some(path)),
        Err(TreeFault::NoSibling) => ("NoSibling", None),
        Err(TreeFault::FullTree) => ("FullTree", None),
        Err(TreeFault::NoMemory) => ("NoMemory", None),
    }
}

/// Whether an answer's name and path, one after the other, are this text.
pub(crate) fn is_told(answer: &Result<(), TreeFault>, wanted: &str) -> bool {
    let (name, path) = parts_of(answer);
    match (wanted.strip_prefix(name), path) {
        (Some(rest), Some(path)) => path.as_text() == rest,
        (Some(rest), None) => rest.is_empty(),
        (None, _) => false,
    }
}

// A change, its path, its other path, and how it is refused.
type RefusalRow<'a> = (&'a str, &'a str, &'a str, &'a str);

const REFUSALS: &[RefusalRow<'_>] = &[
    ("create", "/x/y", "/", "NoSuch /x"),
    ("create", "/", "/", "Exists /"),
    ("create", "/a", "/", "Exists /a"),
    ("create", "/a/z/title", "/", "Taken /a/z/title"),
    ("set z", "/a", "/", "Taken /a/z"),
    ("set z", "/x", "/", "NoSuch /x"),
    ("unset", "/x", "/b", "NoSuch /x"),
    ("remove", "/x", "/", "NoSuch /x"),
    ("remove", "/", "/", "RootFixed"),
    ("first", "/x", "/", "NoSuch /x"),
    ("before", "/a/b", "/b", "NoSibling"),
    ("copy", "/x", "/y/z", "NoSuch /x"),
    ("move", "/x", "/y/z", "NoSuch /x"),
    ("copy", "/a", "/y/z", "NoSuch /y"),
    ("move", "/a", "/y/z", "NoSuch /y"),
    ("copy", "/", "/y/z", "NoSuch /y"),
    ("move", "/", "/y/z", "NoSuch /y"),
    ("copy", "/", "/", "RootFixed"),
    ("move", "/", "/", "RootFixed"),
    ("copy", "/a", "/", "RootFixed"),
    ("move", "/a", "/", "RootFixed"),
    ("copy", "/", "/c", "IntoItself"),
    ("move", "/", "/c", "RootFixed"),
    ("copy", "/", "/a/z/title", "IntoItself"),
    ("move", "/", "/a/z/title", "RootFixed"),
    ("copy", "/a", "/a", "IntoItself"),
    ("move", "/a", "/a", "IntoItself"),
    ("copy", "/a", "/a/b/c", "IntoItself"),
    ("move", "/a", "/a/b/c", "IntoItself"),
    ("copy", "/a/b", "/a", "IntoItself"),
    ("move", "/a/b", "/a", "IntoItself"),
    ("copy", "/a", "/c", "Exists /c"),
    ("move", "/a", "/c", "Exists /c"),
    ("copy", "/c", "/a/z/title", "Taken /a/z/title"),
    ("move", "/c", "/a/z/title", "Taken /a/z/title"),
];

fn is_refused(alloc: Global, tree: &mut Tree, row: &RefusalRow<'_>) -> bool {
    let (word, path, other, wanted) = *row;
    match (path_at(alloc, path), path_at(alloc, other)) {
        (Some(path), Some(other)) => is_told(&change(alloc, tree, word, &path, &other), wanted),
        _ => false,
    }
}

fn all_are_refused(alloc: Global, tree: &mut Tree) -> bool {
    for row in REFUSALS {
        if !is_refused(alloc, tree, row) || !are_left(alloc, tree, BEFORE) {
            return false;
        }
    }
    true
}

fn refuses(alloc: Global, seeds: RandomState) -> bool {
    match whole(alloc, seeds) {
        Some(mut tree) => all_are_refused(alloc, &mut tree) && tree.len() == COUNT,
        None => false,
    }
}

#[test]
fn refusals_tell_their_cause(rt: HostRuntime) -> Result<(), Fail> {
    let seeds = RandomState::new(&rt)?;
    assert!(rt; refuses(rt.alloc(), seeds));
    Ok(())
}
