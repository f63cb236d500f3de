//! The operation that a form asks for.
ghost use Rattle.std.specs.Prelude.{◌≡◌, ◌≢◌, [], IfOk, IfErr, Ok, Err, unwrap_or};
ghost use Rattle.post_plan.specs.Plan as spec;
ghost use Rattle.post_plan.specs.Spots as spot;

use crate::entries::entries;
use crate::faults::{dest_word, fault_of};
use crate::goals::goal_of;
use crate::groups::{carries, deletes};
use crate::node::node_of;
use crate::orders::place_named;
use crate::sets::sets;
use crate::suffix::Suffix;
use crate::verb::{Verb, verb_of};
use crate::wishes::fresh_wish;
use crate::words::first_word;
use crate::{CarryOp, ModifyOp, Op, PlanFault, TargetEnding};
use form_input::Form;
use resource_tree::Place;
use sp_base::{Mem, Path, TextBuf};
use std::alloc::Global;

fn replaces(pairs: &[(TextBuf, TextBuf)]) -> bool
    ensures { result ≡ spec.replaces pairs.now }
{
    match first_word(":replace", pairs) {
        Some(word) => word == "true",
        None => false,
    }
}

fn place_of(alloc: Global, pairs: &[(TextBuf, TextBuf)]) -> Mem<Option<Place>>
    ensures { IfOk result (λ o. o ≡ spec.order_place pairs.now) }
{
    match first_word(":order", pairs) {
        Some(word) => place_named(alloc, word),
        None => Ok(None),
    }
}

fn goal_or_root(alloc: Global, target: &Path, pairs: &[(TextBuf, TextBuf)]) -> Mem<Path>
    ensures { IfOk result (λ p. p ≡ unwrap_or (spot.goal_of target.now (spec.dest_word pairs.now)) []) }
{
    match goal_of(alloc, target, dest_word(pairs))? {
        Some(path) => Ok(path),
        None => Ok(Path::root(alloc)),
    }
}

fn carry_of(alloc: Global, target: &Path, pairs: &[(TextBuf, TextBuf)]) -> Mem<CarryOp>
    ensures { IfOk result (λ op. op ≡ spec.carry_operation target.now pairs.now) }
{
    Ok(CarryOp {
        from: target.duplicate(alloc)?,
        to: goal_or_root(alloc, target, pairs)?,
        replace: replaces(pairs),
    })
}

fn modify_of<'a>(
    alloc: Global,
    target: &Path,
    ending: TargetEnding,
    pairs: &'a [(TextBuf, TextBuf)],
) -> Mem<ModifyOp<'a>>
    ensures { IfOk result (λ op. op ≡ spec.modification target.now ending.star pairs.now) }
{
    let wish = fresh_wish(alloc, ending, pairs)?;
    let node = node_of(target, &wish);
    let found = entries(alloc, &node, pairs)?;
    let moves = carries(alloc, &node, Suffix::MoveFrom, found.as_slice())?;
    let copies = carries(alloc, &node, Suffix::CopyFrom, found.as_slice())?;
    Ok(ModifyOp {
        target: target.duplicate(alloc)?,
        deletes: deletes(alloc, found.as_slice())?,
        moves,
        copies,
        sets: sets(alloc, pairs, found.as_slice())?,
        place: place_of(alloc, pairs)?,
        fresh: wish,
    })
}

fn operation<'a>(
    alloc: Global,
    target: &Path,
    ending: TargetEnding,
    pairs: &'a [(TextBuf, TextBuf)],
) -> Mem<Op<'a>>
    ensures { IfOk result (λ op. op ≡ spec.operation_by (spec.verb_of pairs.now) target.now ending.star pairs.now) }
{
    match verb_of(pairs) {
        None => Ok(Op::Nop(target.duplicate(alloc)?)),
        Some(Verb::Nop) => Ok(Op::Nop(target.duplicate(alloc)?)),
        Some(Verb::Delete) => Ok(Op::Delete(target.duplicate(alloc)?)),
        Some(Verb::Copy) => Ok(Op::Copy(carry_of(alloc, target, pairs)?)),
        Some(Verb::Move) => Ok(Op::Move(carry_of(alloc, target, pairs)?)),
        Some(Verb::Modify) => Ok(Op::Modify(modify_of(alloc, target, ending, pairs)?)),
    }
}

/// The operation that a form asks for at a target, or under one that ends in a star. Of several faults the first is answered in
/// the order of the enum, and within one kind that of the first pair (Apache Sling, "SlingPostServlet"). The form lends the words.
pub fn plan<'a>(
    alloc: Global,
    target: &Path,
    ending: TargetEnding,
    form: &'a Form,
) -> Result<Op<'a>, PlanFault>
    ensures ok { IfOk result (λ op. spec.plan_of target.now ending.star form.now ≡ Ok op) }
    ensures err { IfErr result (λ e. e ≢ PlanFault.NoMemory → spec.plan_of target.now ending.star form.now ≡ Err e) }
{
    let pairs = form.as_slice();
    match fault_of(alloc, target, ending, pairs)? {
        Some(fault) => Err(fault),
        None => Ok(operation(alloc, target, ending, pairs)?),
    }
}
