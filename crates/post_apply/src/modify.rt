//! A node that is made or modified.
ghost use Rattle.std.specs.Prelude.{◌≡◌, ◌≢◌, OnOk, IfOk, IfErr, Ok, Err};
ghost use Rattle.tree_draft.specs.Drafts.{DraftFollows, IsSound};
ghost use Rattle.post_apply.specs.Posting as spec;

use crate::carries::carry_all;
use crate::names::name_given;
use crate::removals::delete_all;
use crate::spots::or_too_deep;
use crate::steps::place;
use crate::values::set_all;
use crate::way::make_way;
use crate::{ApplyFault, PostReport};
use post_plan::{ModifyOp, NameWish};
use sp_base::Path;
use std::alloc::Global;
use tree_draft::Draft;

// The path of the node: the target, or a new node below it, which is made with all above it first.
fn posted_node_of(
    alloc: Global,
    draft: &mut Draft,
    target: &Path,
    fresh: &Option<NameWish>,
) -> Result<Path, ApplyFault>
    requires { IsSound draft.old }
    ensures ok { IfOk result (λ p. spec.posted_node_of target.now fresh.now draft.old.content ≡ Ok (spec.posted_node draft.new.content p)) }
    ensures err { IfErr result (λ e. e ≢ ApplyFault.NoMemory → spec.posted_node_of target.now fresh.now draft.old.content ≡ Err e) }
    ensures follows { OnOk result (DraftFollows draft.old draft.new) }
{
    match fresh {
        None => Ok(target.duplicate(alloc)?),
        Some(wish) => new_posted_node(alloc, draft, target, wish),
    }
}

// The path of a new node below a target.
fn new_posted_node(
    alloc: Global,
    draft: &mut Draft,
    target: &Path,
    wish: &NameWish,
) -> Result<Path, ApplyFault>
    requires { IsSound draft.old }
    ensures ok { IfOk result (λ p. spec.new_posted_node target.now wish.now draft.old.content ≡ Ok (spec.posted_node draft.new.content p)) }
    ensures err { IfErr result (λ e. e ≢ ApplyFault.NoMemory → spec.new_posted_node target.now wish.now draft.old.content ≡ Err e) }
    ensures follows { OnOk result (DraftFollows draft.old draft.new) }
{
    make_way(alloc, draft, target)?;
    let name = name_given(alloc, draft, target, wish)?;
    or_too_deep(target.child_or_none(alloc, name.text())?)
}

// Makes the node and all above it, and then removes, moves, copies, sets and orders.
fn modified(alloc: Global, draft: &mut Draft, op: &ModifyOp, node: &Path) -> Result<(), ApplyFault>
    requires { IsSound draft.old }
    ensures ok { OnOk result (spec.modify_outcome op.now (spec.posted_node draft.old.content node.now) ≡ Ok draft.new.content) }
    ensures err { IfErr result (λ e. e ≢ ApplyFault.NoMemory → spec.modify_outcome op.now (spec.posted_node draft.old.content node.now) ≡ Err e) }
    ensures follows { OnOk result (DraftFollows draft.old draft.new) }
{
    make_way(alloc, draft, node)?;
    delete_all(alloc, draft, node, op.deletes.as_slice())?;
    carry_all(alloc, draft, node, true, op.moves.as_slice())?;
    carry_all(alloc, draft, node, false, op.copies.as_slice())?;
    set_all(alloc, draft, node, op.sets.as_slice())?;
    place(alloc, draft, node, &op.place)
}

/// Makes or modifies a node.
pub fn modify(alloc: Global, draft: &mut Draft, op: &ModifyOp) -> Result<PostReport, ApplyFault>
    requires { IsSound draft.old }
    ensures ok { IfOk result (λ report. spec.modify op.now draft.old.content ≡ Ok (record { content = draft.new.content; report = report })) }
    ensures err { IfErr result (λ e. e ≢ ApplyFault.NoMemory → spec.modify op.now draft.old.content ≡ Err e) }
    ensures follows { OnOk result (DraftFollows draft.old draft.new) }
{
    let node = posted_node_of(alloc, draft, &op.target, &op.fresh)?;
    let created = draft.node(&node).is_none();
    modified(alloc, draft, op, &node)?;
    Ok(PostReport {
        created,
        path: node,
    })
}
