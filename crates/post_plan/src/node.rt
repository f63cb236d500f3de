//! The node that names are relative to.
ghost use Rattle.std.specs.Prelude.{◌≡◌, ◌++◌, IfOk, option_copied, option_map, slice_get};
ghost use Rattle.sp_base.specs.Paths.{text_of};
ghost use Rattle.resource_tree.specs.MergeRoots.{is_merged_path};
ghost use Rattle.post_plan.specs.NewNames.{wished_name};
ghost use Rattle.post_plan.specs.Spots as spec;

use crate::{NameWish, wishes};
use sp_base::{Mem, Path, TextBuf};
use std::alloc::Global;
use std::marker::Model;

/// A node, or a new one below it, whose name need not be one that a path may have. Contracts see the segments.
#[derive(Drop)]
pub struct TargetNode<'a> {
    pub parent: &'a Path,
    pub name: Option<&'a str>,
}

impl<'a> Model for TargetNode<'a> {
    ghost use Rattle.std.specs.Prelude.{option_copied};
    ghost use Rattle.post_plan.specs.Spots.{under};
    ghost use Rattle.sp_base.specs.Texts.{Segments};

    ghost Value = { Segments };

    ghost view = { λ n. under n.parent.now (option_copied n.name) };
}

// A segment of the path of what stands below a node.
#[tactic(auto, using(crate::proofs::NodeLemmas::seg_of_parent, crate::proofs::NodeLemmas::seg_of_rest, crate::proofs::NodeLemmas::seg_of_name, crate::proofs::NodeLemmas::seg_past_name))]
fn seg_below<'a>(node: &TargetNode<'a>, rest: &'a Path, n: usize) -> Option<&'a str>
    ensures { option_copied result ≡ slice_get (node.now ++ rest.now) n }
{
    let depth = node.parent.depth();
    if n < depth {
        return node.parent.seg(n);
    }
    match node.name {
        None => rest.seg(n - depth),
        Some(name) => {
            if n == depth {
                Some(name)
            } else {
                rest.seg(n - depth - 1)
            }
        }
    }
}

fn is_merge_root(first: Option<&str>, second: Option<&str>) -> bool
    ensures { result ≡ is_merged_path (spec.first_two (option_copied first.entry) (option_copied second.entry)) }
{
    match first {
        None => false,
        Some(first) => match second {
            None => false,
            Some(second) => first == "mnt" && (second == "overlay" || second == "override"),
        },
    }
}

/// Whether a path is among those of merged resources.
#[tactic(auto, using(crate::proofs::NodeLemmas::merged_of))]
pub fn is_merged_path(path: &Path) -> bool
    ensures { result ≡ is_merged_path path.now }
{
    is_merge_root(path.seg(0), path.seg(1))
}

/// The same of a path below a node.
#[tactic(auto, using(crate::proofs::NodeLemmas::merged_of))]
pub fn is_merged_below(node: &TargetNode, rest: &Path) -> bool
    ensures { result ≡ is_merged_path (node.now ++ rest.now) }
{
    is_merge_root(seg_below(node, rest, 0), seg_below(node, rest, 1))
}

/// The same of the node itself.
#[tactic(auto, using(crate::proofs::NodeLemmas::merged_node))]
pub fn is_merged_node(alloc: Global, node: &TargetNode) -> bool
    ensures { result ≡ is_merged_path node.now }
{
    let root = Path::root(alloc);
    is_merged_below(node, &root)
}

/// The node that a form is about: the target, or the new node of this name below it.
pub fn node_of<'a>(target: &'a Path, wish: &'a Option<NameWish>) -> TargetNode<'a>
    ensures { result ≡ spec.under target.now (option_map wished_name wish.now) }
{
    let name = match wish {
        Some(wish) => Some(wishes::name_in(wish)),
        None => None,
    };
    TargetNode {
        parent: target,
        name,
    }
}

/// The text of a node's segments.
#[tactic(auto, using(crate::proofs::NodeLemmas::text_of_child))]
pub fn node_text(alloc: Global, node: &TargetNode) -> Mem<TextBuf>
    ensures { IfOk result (λ t. t ≡ text_of node.now) }
{
    match node.name {
        None => node.parent.text(alloc),
        Some(name) => {
            let parent = node.parent.spelling();
            Ok(TextBuf::from(format!(in alloc; "{parent}/{name}")?))
        }
    }
}
