//! Nodes and properties that are copied or moved.
ghost use Rattle.std.specs.Prelude.{◌≡◌, ◌≢◌, OnOk, IfOk, IfErr, Ok, Err, Some, None};
ghost use Rattle.tree_draft.specs.Drafts.{DraftFollows, IsSound};
ghost use Rattle.post_apply.specs.Carries as spec;
ghost use Rattle.post_apply.specs.Posting as whole;
ghost use Rattle.post_apply.specs.Steps as step;

use crate::removals::clear;
use crate::spots::path_of_spot;
use crate::steps::{copy, relocate, remove};
use crate::values::put_at;
use crate::way::make_way;
use crate::{ApplyFault, PostReport};
use post_plan::{Carry, CarryOp};
use resource_tree::TreeFault;
use sp_base::{Mem, Path, Value};
use std::alloc::Global;
use tree_draft::Draft;

// Whether one of the ends is the root, which isn't moved and is no goal.
fn ends_at_root(moves: bool, from: &Path, to: &Path) -> bool
    ensures { result ≡ spec.ends_at_root moves from.now to.now }
{
    to.depth() == 0 || (moves && from.depth() == 0)
}

// Whether a copy or a move of a node may begin.
fn check(
    alloc: Global,
    draft: &Draft,
    moves: bool,
    replaces: bool,
    from: &Path,
    to: &Path,
) -> Result<(), ApplyFault>
    ensures ok { OnOk result (spec.carry_fault moves replaces draft.now.content from.now to.now ≡ None) }
    ensures err { IfErr result (λ e. e ≢ ApplyFault.NoMemory → spec.carry_fault moves replaces draft.now.content from.now to.now ≡ Some e) }
{
    if draft.node(from).is_none() {
        return Err(ApplyFault::Tree(TreeFault::NoSuch(from.duplicate(alloc)?)));
    }
    if ends_at_root(moves, from, to) {
        return Err(ApplyFault::Tree(TreeFault::RootFixed));
    }
    if to.is_under(from) || from.is_under(to) {
        return Err(ApplyFault::Tree(TreeFault::IntoItself));
    }
    if !replaces && draft.node(to).is_some() {
        return Err(ApplyFault::DestThere(to.duplicate(alloc)?));
    }
    Ok(())
}

// Takes a node at the goal away, where one is there.
fn give_way(alloc: Global, draft: &mut Draft, to: &Path) -> Result<(), ApplyFault>
    requires { IsSound draft.old }
    ensures ok { OnOk result (spec.outcome_without_goal draft.old.content to.now ≡ Ok draft.new.content) }
    ensures err { IfErr result (λ e. e ≢ ApplyFault.NoMemory → spec.outcome_without_goal draft.old.content to.now ≡ Err e) }
    ensures follows { OnOk result (DraftFollows draft.old draft.new) }
{
    if draft.node(to).is_none() {
        return Ok(());
    }
    remove(alloc, draft, to)
}

// Copies or moves a node to a goal where none is.
fn carried(
    alloc: Global,
    draft: &mut Draft,
    moves: bool,
    from: &Path,
    to: &Path,
) -> Result<(), ApplyFault>
    requires { IsSound draft.old }
    ensures ok { OnOk result (spec.carry_outcome moves from.now to.now draft.old.content ≡ Ok draft.new.content) }
    ensures err { IfErr result (λ e. e ≢ ApplyFault.NoMemory → spec.carry_outcome moves from.now to.now draft.old.content ≡ Err e) }
    ensures follows { OnOk result (DraftFollows draft.old draft.new) }
{
    if moves {
        relocate(alloc, draft, from, to)
    } else {
        copy(alloc, draft, from, to)
    }
}

// Puts a node in the place of what stands at the goal.
fn replace(
    alloc: Global,
    draft: &mut Draft,
    moves: bool,
    from: &Path,
    to: &Path,
) -> Result<(), ApplyFault>
    requires { IsSound draft.old }
    ensures ok { OnOk result (spec.replacement_outcome moves from.now to.now draft.old.content ≡ Ok draft.new.content) }
    ensures err { IfErr result (λ e. e ≢ ApplyFault.NoMemory → spec.replacement_outcome moves from.now to.now draft.old.content ≡ Err e) }
    ensures follows { OnOk result (DraftFollows draft.old draft.new) }
{
    give_way(alloc, draft, to)?;
    carried(alloc, draft, moves, from, to)
}

/// Copies or moves a node.
pub fn carry(
    alloc: Global,
    draft: &mut Draft,
    moves: bool,
    op: &CarryOp,
) -> Result<PostReport, ApplyFault>
    requires { IsSound draft.old }
    ensures ok { IfOk result (λ report. whole.carry moves op.now draft.old.content ≡ Ok (record { content = draft.new.content; report = report })) }
    ensures err { IfErr result (λ e. e ≢ ApplyFault.NoMemory → whole.carry moves op.now draft.old.content ≡ Err e) }
    ensures follows { OnOk result (DraftFollows draft.old draft.new) }
{
    check(alloc, draft, moves, op.replace, &op.from, &op.to)?;
    let created = draft.node(&op.to).is_none();
    replace(alloc, draft, moves, &op.from, &op.to)?;
    Ok(PostReport {
        created,
        path: op.to.duplicate(alloc)?,
    })
}

// The value of the property at a path.
fn property_at(alloc: Global, draft: &Draft, path: &Path) -> Mem<Option<Value>>
    ensures { IfOk result (λ o. o ≡ spec.property_at draft.now.content path.now) }
{
    let parent = path.parent(alloc)?;
    match draft.node(&parent) {
        Some(node) => match node.props().get(path.name()) {
            Some(value) => Ok(Some(value.duplicate(alloc)?)),
            None => Ok(None),
        },
        None => Ok(None),
    }
}

// Brings a property to a goal, with the nodes on the way to it.
fn bring_value(
    alloc: Global,
    draft: &mut Draft,
    moves: bool,
    from: &Path,
    to: &Path,
    value: Value,
) -> Result<(), ApplyFault>
    requires { IsSound draft.old }
    ensures ok { OnOk result (spec.bring_value moves from.now to.now (Some value) draft.old.content ≡ Ok draft.new.content) }
    ensures err { IfErr result (λ e. e ≢ ApplyFault.NoMemory → spec.bring_value moves from.now to.now (Some value) draft.old.content ≡ Err e) }
    ensures follows { OnOk result (DraftFollows draft.old draft.new) }
{
    let parent = to.parent(alloc)?;
    make_way(alloc, draft, &parent)?;
    if moves {
        clear(alloc, draft, from)?;
    }
    put_at(alloc, draft, to, value)
}

// Brings a node to a goal, with the nodes on the way to it.
fn bring_node(
    alloc: Global,
    draft: &mut Draft,
    moves: bool,
    from: &Path,
    to: &Path,
) -> Result<(), ApplyFault>
    requires { IsSound draft.old }
    ensures ok { OnOk result (spec.bring_node moves from.now to.now draft.old.content ≡ Ok draft.new.content) }
    ensures err { IfErr result (λ e. e ≢ ApplyFault.NoMemory → spec.bring_node moves from.now to.now draft.old.content ≡ Err e) }
    ensures follows { OnOk result (DraftFollows draft.old draft.new) }
{
    check(alloc, draft, moves, true, from, to)?;
    let parent = to.parent(alloc)?;
    make_way(alloc, draft, &parent)?;
    replace(alloc, draft, moves, from, to)
}

// Brings the node at a path to a goal, else the property there.
fn bring(
    alloc: Global,
    draft: &mut Draft,
    moves: bool,
    from: &Path,
    to: &Path,
) -> Result<(), ApplyFault>
    requires { IsSound draft.old }
    ensures ok { OnOk result (spec.bring moves from.now to.now draft.old.content ≡ Ok draft.new.content) }
    ensures err { IfErr result (λ e. e ≢ ApplyFault.NoMemory → spec.bring moves from.now to.now draft.old.content ≡ Err e) }
    ensures follows { OnOk result (DraftFollows draft.old draft.new) }
{
    if draft.node(from).is_some() {
        return bring_node(alloc, draft, moves, from, to);
    }
    match property_at(alloc, draft, from)? {
        Some(value) => bring_value(alloc, draft, moves, from, to, value),
        None => Ok(()),
    }
}

fn carry_at(
    alloc: Global,
    draft: &mut Draft,
    node: &Path,
    moves: bool,
    carry: &Carry,
) -> Result<(), ApplyFault>
    requires { IsSound draft.old }
    ensures ok { OnOk result (spec.carry_at moves node.now draft.old.content carry.now ≡ Ok draft.new.content) }
    ensures err { IfErr result (λ e. e ≢ ApplyFault.NoMemory → spec.carry_at moves node.now draft.old.content carry.now ≡ Err e) }
    ensures follows { OnOk result (DraftFollows draft.old draft.new) }
{
    let to = path_of_spot(alloc, node, &carry.to)?;
    let from = path_of_spot(alloc, node, &carry.from)?;
    bring(alloc, draft, moves, &from, &to)
}

/// Copies or moves nodes and properties.
#[tactic(auto, unfolding(crate::specs::Steps::in_turn))]
pub fn carry_all(
    alloc: Global,
    draft: &mut Draft,
    node: &Path,
    moves: bool,
    carries: &[Carry],
) -> Result<(), ApplyFault>
    requires { IsSound draft.old }
    ensures ok { OnOk result (step.in_turn (spec.carry_at moves node.now) carries.now draft.old.content ≡ Ok draft.new.content) }
    ensures err { IfErr result (λ e. e ≢ ApplyFault.NoMemory → step.in_turn (spec.carry_at moves node.now) carries.now draft.old.content ≡ Err e) }
    ensures follows { OnOk result (DraftFollows draft.old draft.new) }
{
    let mut rest = carries;
    while let [carry, more @ ..] = rest {
        carry_at(alloc, draft, node, moves, carry)?;
        rest = more;
    }
    Ok(())
}
