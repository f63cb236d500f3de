//! What is seen at a path when resources are merged.
ghost use Rattle.std.specs.Prelude.{◌≡◌, IfOk, not, filter, option_map};
ghost use Rattle.overlay_merge.specs.Hiding.{merged_from};
ghost use Rattle.overlay_merge.specs.Roots.{is_name_of_root};
ghost use Rattle.overlay_merge.specs.Merged.{has_resource, kids_in, merge, merged_resource, merged_alone, merged_with_kid, unmerged_resource, with_only_kid, without_kids};

use crate::kids::{kids_like, kids_of};
use crate::merged_resources::merged_from;
use crate::properties::merged_props;
use crate::roots::{is_merged_path, is_name_of_root, is_parent_of_roots};
use resource_tree::{Node, Res, Tree};
use sp_base::{Mem, Path, TextBuf, TextList};
use std::alloc::Global;

// The kids of the node that has the two roots as its kids.
fn kids_but_roots(alloc: Global, kids: &[TextBuf]) -> Mem<TextList>
    ensures { IfOk result (λ list. list ≡ filter (λ name. not (is_name_of_root name)) kids.now) }
{
    let mut list = TextList::new(alloc);
    for kid in kids {
        if !is_name_of_root(kid.text()) {
            list.push(kid.duplicate(alloc)?)?;
        }
    }
    Ok(list)
}

// The node at a path as it is, but for the roots among its kids.
fn unmerged<'a>(alloc: Global, tree: &'a Tree, path: &Path) -> Mem<Option<Res<'a>>>
    ensures { IfOk result (λ o. o ≡ unmerged_resource tree.now path.now) }
{
    let Some(node) = tree.node(path) else {
        return Ok(None);
    };
    let path = path.duplicate(alloc)?;
    if !is_parent_of_roots(&path) {
        return Ok(Some(Res::lent(path, node)));
    }
    let props = node.props.duplicate(alloc)?;
    let kids = kids_but_roots(alloc, node.kids.as_slice())?;
    Ok(Some(Res::owned(path, Node { props, kids })))
}

// What the layers of a path make together.
fn merge<'a>(alloc: Global, tree: &'a Tree, path: &Path) -> Mem<Option<Res<'a>>>
    ensures { IfOk result (λ o. o ≡ merge tree.now path.now (merged_from tree.now path.now)) }
{
    let layers = merged_from(alloc, tree, path)?;
    if layers.is_empty() {
        return Ok(None);
    }
    let props = merged_props(alloc, &layers)?;
    let kids = kids_of(alloc, tree, path, &layers)?;
    Ok(Some(Res::owned(path.duplicate(alloc)?, Node { props, kids })))
}

/// The resource that is seen at a path: under `/mnt/overlay` and `/mnt/override` the merged one, elsewhere the node as it is.
#[tactic(auto, unfolding(crate::specs::Merged::merged_resource))]
pub fn merged<'a>(alloc: Global, tree: &'a Tree, path: &Path) -> Mem<Option<Res<'a>>>
    ensures { IfOk result (λ o. o ≡ merged_resource tree.now path.now) }
{
    if is_merged_path(path) {
        merge(alloc, tree, path)
    } else {
        unmerged(alloc, tree, path)
    }
}

// What the layers of a path make together, without the kids.
fn merge_alone<'a>(alloc: Global, tree: &'a Tree, path: &Path) -> Mem<Option<Res<'a>>>
    ensures { IfOk result (λ o. o ≡ option_map without_kids (merge tree.now path.now (merged_from tree.now path.now))) }
{
    let layers = merged_from(alloc, tree, path)?;
    if layers.is_empty() {
        return Ok(None);
    }
    let props = merged_props(alloc, &layers)?;
    let kids = TextList::new(alloc);
    Ok(Some(Res::owned(path.duplicate(alloc)?, Node { props, kids })))
}

/// The resource that is seen at a path, for its properties alone: where resources are merged its kids, which cost a look at each,
/// are left out.
#[tactic(auto, unfolding(crate::specs::Merged::merged_resource, crate::specs::Merged::merged_alone))]
pub fn merged_alone<'a>(alloc: Global, tree: &'a Tree, path: &Path) -> Mem<Option<Res<'a>>>
    ensures { IfOk result (λ o. o ≡ merged_alone tree.now path.now) }
{
    if is_merged_path(path) {
        merge_alone(alloc, tree, path)
    } else {
        unmerged(alloc, tree, path)
    }
}

// What the layers of a path make together, without the kids but for that of a name.
fn merge_with_kid<'a>(
    alloc: Global,
    tree: &'a Tree,
    path: &Path,
    name: &str,
) -> Mem<Option<Res<'a>>>
    ensures { IfOk result (λ o. o ≡ option_map (with_only_kid name.now) (merge tree.now path.now (merged_from tree.now path.now))) }
{
    let layers = merged_from(alloc, tree, path)?;
    if layers.is_empty() {
        return Ok(None);
    }
    let props = merged_props(alloc, &layers)?;
    let kids = kids_like(alloc, tree, path, &layers, name)?;
    Ok(Some(Res::owned(path.duplicate(alloc)?, Node { props, kids })))
}

/// The resource that is seen at a path, for its properties and the kid of a name: where resources are merged its other kids are left out,
/// and none of them is looked at.
#[tactic(auto, unfolding(crate::specs::Merged::merged_resource, crate::specs::Merged::merged_with_kid))]
pub fn merged_with_kid<'a>(
    alloc: Global,
    tree: &'a Tree,
    path: &Path,
    name: &str,
) -> Mem<Option<Res<'a>>>
    ensures { IfOk result (λ o. o ≡ merged_with_kid tree.now path.now name.now) }
{
    if is_merged_path(path) {
        merge_with_kid(alloc, tree, path, name)
    } else {
        unmerged(alloc, tree, path)
    }
}

fn kids_copied(alloc: Global, kids: &[TextBuf]) -> Mem<TextList>
    ensures { IfOk result (λ list. list ≡ kids.now) }
{
    let mut list = TextList::new(alloc);
    for kid in kids {
        list.push(kid.duplicate(alloc)?)?;
    }
    Ok(list)
}

/// The names of the kids of the resource that is seen at a path, none where there is no resource.
pub fn merged_kids(alloc: Global, tree: &Tree, path: &Path) -> Mem<TextList>
    ensures { IfOk result (λ kids. kids ≡ kids_in (merged_resource tree.now path.now)) }
{
    match merged(alloc, tree, path)? {
        Some(res) => kids_copied(alloc, res.kids()),
        None => Ok(TextList::new(alloc)),
    }
}

/// Whether a resource is seen at a path.
pub fn has_resource(alloc: Global, tree: &Tree, path: &Path) -> Mem<bool>
    ensures { IfOk result (λ b. b ≡ has_resource tree.now path.now) }
{
    if is_merged_path(path) {
        return Ok(!merged_from(alloc, tree, path)?.is_empty());
    }
    Ok(tree.node(path).is_some())
}
