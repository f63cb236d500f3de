//! Nodes and properties that are taken away.
ghost use Rattle.std.specs.Prelude.{◌≡◌, ◌≢◌, OnOk, IfErr, Ok, Err};
ghost use Rattle.tree_draft.specs.Drafts.{DraftFollows, IsSound};
ghost use Rattle.resource_tree.specs.Changes.{has_prop_at};
ghost use Rattle.post_apply.specs.Removals as spec;
ghost use Rattle.post_apply.specs.Steps as step;

use crate::ApplyFault;
use crate::spots::path_of_spot;
use crate::steps::remove;
use post_plan::Spot;
use sp_base::Path;
use std::alloc::Global;
use tree_draft::Draft;

/// Whether a node is there that has a property of this name.
pub fn has_property(draft: &Draft, path: &Path, name: &str) -> bool
    ensures { result ≡ has_prop_at draft.now.content path.now name.now }
{
    match draft.node(path) {
        Some(node) => node.props().get(name).is_some(),
        None => false,
    }
}

/// Takes the property at a path away, where it is there.
pub fn clear(alloc: Global, draft: &mut Draft, path: &Path) -> Result<(), ApplyFault>
    requires { IsSound draft.old }
    ensures ok { OnOk result (spec.without_property draft.old.content path.now ≡ draft.new.content) }
    ensures err { IfErr result (λ e. e ≡ ApplyFault.NoMemory) }
    ensures follows { OnOk result (DraftFollows draft.old draft.new) }
{
    let parent = path.parent(alloc)?;
    let Some(name) = path.last() else {
        return Ok(());
    };
    if !has_property(draft, &parent, name) {
        return Ok(());
    }
    draft.unset(alloc, &parent, name)?;
    Ok(())
}

// Takes the node or the property at a path away, where one is there.
fn delete(alloc: Global, draft: &mut Draft, path: &Path) -> Result<(), ApplyFault>
    requires { IsSound draft.old }
    ensures ok { OnOk result (spec.deletion_outcome draft.old.content path.now ≡ Ok draft.new.content) }
    ensures err { IfErr result (λ e. e ≢ ApplyFault.NoMemory → spec.deletion_outcome draft.old.content path.now ≡ Err e) }
    ensures follows { OnOk result (DraftFollows draft.old draft.new) }
{
    if draft.node(path).is_some() {
        return remove(alloc, draft, path);
    }
    clear(alloc, draft, path)
}

fn delete_at(alloc: Global, draft: &mut Draft, node: &Path, spot: &Spot) -> Result<(), ApplyFault>
    requires { IsSound draft.old }
    ensures ok { OnOk result (spec.delete_at node.now draft.old.content spot.now ≡ Ok draft.new.content) }
    ensures err { IfErr result (λ e. e ≢ ApplyFault.NoMemory → spec.delete_at node.now draft.old.content spot.now ≡ Err e) }
    ensures follows { OnOk result (DraftFollows draft.old draft.new) }
{
    let path = path_of_spot(alloc, node, spot)?;
    delete(alloc, draft, &path)
}

/// Takes the nodes and properties at some spots away.
#[tactic(auto, unfolding(crate::specs::Steps::in_turn))]
pub fn delete_all(
    alloc: Global,
    draft: &mut Draft,
    node: &Path,
    spots: &[Spot],
) -> Result<(), ApplyFault>
    requires { IsSound draft.old }
    ensures ok { OnOk result (step.in_turn (spec.delete_at node.now) spots.now draft.old.content ≡ Ok draft.new.content) }
    ensures err { IfErr result (λ e. e ≢ ApplyFault.NoMemory → step.in_turn (spec.delete_at node.now) spots.now draft.old.content ≡ Err e) }
    ensures follows { OnOk result (DraftFollows draft.old draft.new) }
{
    let mut rest = spots;
    while let [spot, more @ ..] = rest {
        delete_at(alloc, draft, node, spot)?;
        rest = more;
    }
    Ok(())
}
