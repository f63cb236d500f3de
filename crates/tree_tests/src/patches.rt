//! Patches: one that is put over a tree with room that is made before, and entries of one path.
ghost use Rattle.std.specs.Prelude.{IfSome};
ghost use Rattle.resource_tree.specs.Content.{IsGood};
ghost use Rattle.resource_tree.specs.Patches.{patching};

use crate::nodes::{BEFORE, Left, are_left, path_at, whole};
use resource_tree::{Node, Patch, PatchNode, Tree};
use sp_base::{Path, PropList, TextList};
use std::alloc::Global;
use std::hash::RandomState;
use std::test::Fail;
use tree_draft::Draft;

// The patch that takes a node away.
fn removal(alloc: Global, tree: &Tree, path: &Path) -> Option<Patch>
    ensures { IfSome result (λ patch. IsGood (patching tree.now patch)) }
{
    let mut draft = Draft::new(alloc, tree);
    match draft.remove(alloc, path) {
        Ok(()) => draft.patch(alloc).ok(),
        Err(_) => None,
    }
}

const WITHOUT_C: &[Left<'_>] = &[("/", Some("adm")), ("/c", None), ("/c/k", None)];

// Out of memory, the tree comes back as it was.
fn is_put(alloc: Global, tree: Tree, patch: Patch) -> bool
    requires { IsGood (patching tree patch) }
{
    match tree.with_room(&patch) {
        Ok(roomy) => are_left(alloc, &roomy.take(patch), WITHOUT_C),
        Err(tree) => are_left(alloc, &tree, BEFORE),
    }
}

fn takes_a_patch(alloc: Global, seeds: RandomState) -> bool {
    let path = path_at(alloc, "/c");
    match (whole(alloc, seeds), path) {
        (Some(tree), Some(path)) => match removal(alloc, &tree, &path) {
            Some(patch) => is_put(alloc, tree, patch),
            None => false,
        },
        _ => false,
    }
}

fn gone_or_bare(alloc: Global, is_gone: bool) -> PatchNode {
    if is_gone {
        PatchNode::Gone
    } else {
        PatchNode::Node(Node {
            props: PropList::new(alloc),
            kids: TextList::new(alloc),
        })
    }
}

fn puts(alloc: Global, patch: &mut Patch, path: &str, is_gone: bool) -> bool {
    match path_at(alloc, path) {
        Some(path) => patch.put(path, gone_or_bare(alloc, is_gone)).is_ok(),
        None => false,
    }
}

fn begins_with_node(patch: &Patch, path: &str) -> bool {
    matches!(patch.at(0), Some((first, PatchNode::Node(_))) if first.as_text() == path)
}

// Of the entries of one path the last stays, in the place of the first.
fn keeps_last_entry(alloc: Global, seeds: RandomState) -> bool {
    let mut patch = Patch::new(alloc, seeds);
    puts(alloc, &mut patch, "/b", true)
        && puts(alloc, &mut patch, "/a", true)
        && puts(alloc, &mut patch, "/b", false)
        && patch.len() == 2
        && begins_with_node(&patch, "/b")
}

#[test]
fn patches_are_put_over_trees(rt: HostRuntime) -> Result<(), Fail> {
    let seeds = RandomState::new(&rt)?;
    assert!(rt; takes_a_patch(rt.alloc(), seeds));
    assert!(rt; keeps_last_entry(rt.alloc(), seeds));
    Ok(())
}
