//! Changes of a tree at once, which the program makes through drafts (examples/runs/post_parts, post_places, post_operations).
use crate::nodes::{Left, are_left, path_at, whole};
use resource_tree::{Place, Tree, TreeFault};
use sp_base::{Mem, Path, TextBuf, Value};
use std::alloc::Global;
use std::hash::RandomState;
use std::test::Fail;
use tree_draft::at_once;

// A place by a word, which may stand beside the kid of a name.
fn place_of(alloc: Global, word: &str, name: &str) -> Mem<Place> {
    match word {
        "first" => Ok(Place::First),
        "before" => Ok(Place::Before(TextBuf::of(alloc, name)?)),
        "after" => Ok(Place::After(TextBuf::of(alloc, name)?)),
        "at 1" => Ok(Place::At(1)),
        "at 9" => Ok(Place::At(9)),
        _ => Ok(Place::Last),
    }
}

fn order(
    alloc: Global,
    tree: &mut Tree,
    path: &Path,
    word: &str,
    name: &str,
) -> Result<(), TreeFault> {
    let place = place_of(alloc, word, name)?;
    at_once::order(alloc, tree, path, &place)
}

fn unset(alloc: Global, tree: &mut Tree, path: &Path, name: &str) -> Result<(), TreeFault> {
    at_once::unset(alloc, tree, path, name)?;
    Ok(())
}

/// Makes the change that a word names. What a copy and a move bring goes to the other path; of the other changes its last segment is a name.
pub(crate) fn change(
    alloc: Global,
    tree: &mut Tree,
    word: &str,
    path: &Path,
    other: &Path,
) -> Result<(), TreeFault> {
    let name = other.name();
    match word {
        "create" => at_once::create(alloc, tree, path),
        "remove" => at_once::remove(alloc, tree, path),
        "copy" => at_once::copy_to(alloc, tree, path, other),
        "move" => at_once::move_to(alloc, tree, path, other),
        "set z" => at_once::set(alloc, tree, path, "z", Value::Truth(true)),
        "unset" => unset(alloc, tree, path, name),
        _ => order(alloc, tree, path, word, name),
    }
}

// A change, its path, its other path, and some of what is then there.
type ChangeRow<'a> = (&'a str, &'a str, &'a str, &'a [Left<'a>]);

const CHANGES: &[ChangeRow<'_>] = &[
    (
        "create",
        "/b",
        "/",
        &[("/", Some("acdmb")), ("/b", Some(""))],
    ),
    ("first", "/d/g", "/", &[("/d", Some("gefh"))]),
    ("last", "/d/f", "/", &[("/d", Some("eghf"))]),
    ("before", "/d/e", "/g", &[("/d", Some("fegh"))]),
    ("before", "/d/h", "/f", &[("/d", Some("ehfg"))]),
    ("after", "/d/e", "/g", &[("/d", Some("fgeh"))]),
    ("after", "/d/h", "/e", &[("/d", Some("ehfg"))]),
    ("at 1", "/d/g", "/", &[("/d", Some("egfh"))]),
    ("at 1", "/d/e", "/", &[("/d", Some("fegh"))]),
    ("at 9", "/d/e", "/", &[("/d", Some("fghe"))]),
    (
        "remove",
        "/a/z",
        "/",
        &[
            ("/", Some("acdm")),
            ("/a", Some("b")),
            ("/a/b", Some("")),
            ("/a/z", None),
            ("/a/z/y", None),
        ],
    ),
    (
        "remove",
        "/m/n/b",
        "/",
        &[
            ("/m/n/b", None),
            ("/m/n/b/c", None),
            ("/m/n/b!", Some("")),
            ("/m/n/bc", Some("")),
            ("/m/nb", Some("")),
        ],
    ),
    (
        "copy",
        "/a",
        "/c/b",
        &[
            ("/", Some("acdm")),
            ("/a", Some("zb")),
            ("/a/z", Some("*y")),
            ("/c", Some("kb")),
            ("/c/b", Some("zb")),
            ("/c/b/b", Some("")),
            ("/c/b/z", Some("*y")),
            ("/c/b/z/y", Some("")),
        ],
    ),
    (
        "move",
        "/a",
        "/c/b",
        &[
            ("/", Some("cdm")),
            ("/a", None),
            ("/a/z", None),
            ("/c", Some("kb")),
            ("/c/b", Some("zb")),
            ("/c/b/b", Some("")),
            ("/c/b/z", Some("*y")),
            ("/c/b/z/y", Some("")),
        ],
    ),
];

fn changes(alloc: Global, tree: &mut Tree, row: &ChangeRow<'_>) -> bool {
    let (word, path, other, _) = *row;
    match (path_at(alloc, path), path_at(alloc, other)) {
        (Some(path), Some(other)) => change(alloc, tree, word, &path, &other).is_ok(),
        _ => false,
    }
}

// Whether a change of a copy of the tree leaves what the row says.
fn is_changed(alloc: Global, tree: &Tree, row: &ChangeRow<'_>) -> bool {
    match tree.duplicate(alloc) {
        Ok(mut after) => changes(alloc, &mut after, row) && are_left(alloc, &after, row.3),
        Err(_) => false,
    }
}

fn all_are_changed(alloc: Global, tree: &Tree) -> bool {
    for row in CHANGES {
        if !is_changed(alloc, tree, row) {
            return false;
        }
    }
    true
}

fn size_of(tree: &Tree, path: &Path) -> Option<i64> {
    match tree.node(path) {
        Some(node) => match node.props.get("size") {
            Some(Value::Long(size)) => Some(*size),
            _ => None,
        },
        None => None,
    }
}

fn sets_size(alloc: Global, tree: &mut Tree, path: &Path, size: i64) -> bool {
    at_once::set(alloc, tree, path, "size", Value::Long(size)).is_ok()
        && size_of(tree, path) == Some(size)
}

fn unsets_size(alloc: Global, tree: &mut Tree, path: &Path) -> bool {
    matches!(at_once::unset(alloc, tree, path, "size"), Ok(true)) && size_of(tree, path).is_none()
}

// Whether a value is set, set again, and taken away.
fn keeps_values(alloc: Global, tree: &mut Tree) -> bool {
    let path = Path::root(alloc);
    sets_size(alloc, tree, &path, 1)
        && sets_size(alloc, tree, &path, 2)
        && unsets_size(alloc, tree, &path)
        && matches!(at_once::unset(alloc, tree, &path, "size"), Ok(false))
}

fn is_tried(alloc: Global, seeds: RandomState) -> bool {
    match whole(alloc, seeds) {
        Some(mut tree) => all_are_changed(alloc, &tree) && keeps_values(alloc, &mut tree),
        None => false,
    }
}

#[test]
fn a_tree_is_changed(rt: HostRuntime) -> Result<(), Fail> {
    let seeds = RandomState::new(&rt)?;
    assert!(rt; is_tried(rt.alloc(), seeds));
    Ok(())
}
