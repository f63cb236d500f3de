//! Properties that are set.
ghost use Rattle.std.specs.Prelude.{◌≡◌, ◌≢◌, IfOk, OnOk, IfErr, Ok, Err};
ghost use Rattle.sp_base.specs.Typed.{single_of, typed_of};
ghost use Rattle.tree_draft.specs.Drafts.{DraftFollows, IsSound};
ghost use Rattle.post_apply.specs.Values as spec;
ghost use Rattle.post_apply.specs.Steps as step;

use crate::ApplyFault;
use crate::spots::path_of_spot;
use crate::steps::set;
use crate::way::make_way;
use post_plan::{LentWords, PropSet};
use resource_tree::TreeFault;
use sp_base::{Hint, HintedType, Mem, Path, TextBuf, Value, ValueFault};
use std::alloc::Global;
use tree_draft::Draft;

fn untyped(alloc: Global, words: &LentWords) -> Mem<Value>
    ensures { IfOk result (λ v. v ≡ spec.untyped_value words.now) }
{
    match words.lone() {
        Some(word) => Ok(Value::Text(TextBuf::of(alloc, word)?)),
        None => Ok(Value::Texts(words.copied(alloc)?)),
    }
}

// The value of words by a hint. Words that stay texts are copied once.
fn hinted(alloc: Global, hint: Hint, words: &LentWords) -> Result<Value, ValueFault>
    ensures ok { IfOk result (λ v. typed_of hint words.now ≡ Ok v) }
    ensures err { IfErr result (λ e. e ≢ ValueFault.NoMemory → typed_of hint words.now ≡ Err e) }
{
    match (hint.hinted, hint.many) {
        (HintedType::Text, true) => Ok(Value::Texts(words.copied(alloc)?)),
        (HintedType::Text, false) => one_text(alloc, words),
        _ => Value::typed(alloc, hint, &words.copied(alloc)?),
    }
}

// The value of one word.
fn one_text(alloc: Global, words: &LentWords) -> Result<Value, ValueFault>
    ensures ok { IfOk result (λ v. single_of HintedType.Text words.now ≡ Ok v) }
    ensures err { IfErr result (λ e. e ≢ ValueFault.NoMemory → single_of HintedType.Text words.now ≡ Err e) }
{
    match words.lone() {
        Some(word) => Ok(Value::Text(TextBuf::of(alloc, word)?)),
        None => Err(ValueFault::WrongCount(words.len())),
    }
}

fn value_of(alloc: Global, hint: Option<Hint>, words: &LentWords) -> Result<Value, ValueFault>
    ensures ok { IfOk result (λ v. spec.hinted_value hint words.now ≡ Ok v) }
    ensures err { IfErr result (λ e. e ≢ ValueFault.NoMemory → spec.hinted_value hint words.now ≡ Err e) }
{
    match hint {
        Some(hint) => hinted(alloc, hint, words),
        None => Ok(untyped(alloc, words)?),
    }
}

// The value of words; a fault is told with the property's name.
fn named_value(
    alloc: Global,
    name: &str,
    hint: Option<Hint>,
    words: &LentWords,
) -> Result<Value, ApplyFault>
    ensures ok { IfOk result (λ v. spec.named_outcome name.now (spec.hinted_value hint words.now) ≡ Ok v) }
    ensures err { IfErr result (λ e. e ≢ ApplyFault.NoMemory → spec.named_outcome name.now (spec.hinted_value hint words.now) ≡ Err e) }
{
    match value_of(alloc, hint, words) {
        Ok(value) => Ok(value),
        Err(ValueFault::NoMemory) => Err(ApplyFault::NoMemory),
        Err(fault) => Err(ApplyFault::Value(TextBuf::of(alloc, name)?, fault)),
    }
}

/// Sets the property at a path, whose node is there.
pub fn put_at(alloc: Global, draft: &mut Draft, path: &Path, value: Value) -> Result<(), ApplyFault>
    requires { IsSound draft.old }
    ensures ok { OnOk result (spec.put_at draft.old.content path.now value ≡ Ok draft.new.content) }
    ensures err { IfErr result (λ e. e ≢ ApplyFault.NoMemory → spec.put_at draft.old.content path.now value ≡ Err e) }
    ensures follows { OnOk result (DraftFollows draft.old draft.new) }
{
    let parent = path.parent(alloc)?;
    let Some(name) = path.last() else {
        return Err(ApplyFault::Tree(TreeFault::Taken(path.duplicate(alloc)?)));
    };
    set(alloc, draft, &parent, name, value)
}

/// The same, with its node and all above it made where they aren't there.
pub fn put_on_way(
    alloc: Global,
    draft: &mut Draft,
    path: &Path,
    value: Value,
) -> Result<(), ApplyFault>
    requires { IsSound draft.old }
    ensures ok { OnOk result (spec.put_on_way draft.old.content path.now value ≡ Ok draft.new.content) }
    ensures err { IfErr result (λ e. e ≢ ApplyFault.NoMemory → spec.put_on_way draft.old.content path.now value ≡ Err e) }
    ensures follows { OnOk result (DraftFollows draft.old draft.new) }
{
    let parent = path.parent(alloc)?;
    make_way(alloc, draft, &parent)?;
    put_at(alloc, draft, path, value)
}

fn set_at(alloc: Global, draft: &mut Draft, node: &Path, set: &PropSet) -> Result<(), ApplyFault>
    requires { IsSound draft.old }
    ensures ok { OnOk result (spec.set_at node.now draft.old.content set.now ≡ Ok draft.new.content) }
    ensures err { IfErr result (λ e. e ≢ ApplyFault.NoMemory → spec.set_at node.now draft.old.content set.now ≡ Err e) }
    ensures follows { OnOk result (DraftFollows draft.old draft.new) }
{
    let value = named_value(alloc, set.spot.path.name(), set.hint, &set.words)?;
    let path = path_of_spot(alloc, node, &set.spot)?;
    put_on_way(alloc, draft, &path, value)
}

/// Sets some properties.
#[tactic(auto, unfolding(crate::specs::Steps::in_turn))]
pub fn set_all(
    alloc: Global,
    draft: &mut Draft,
    node: &Path,
    sets: &[PropSet],
) -> Result<(), ApplyFault>
    requires { IsSound draft.old }
    ensures ok { OnOk result (step.in_turn (spec.set_at node.now) sets.now draft.old.content ≡ Ok draft.new.content) }
    ensures err { IfErr result (λ e. e ≢ ApplyFault.NoMemory → step.in_turn (spec.set_at node.now) sets.now draft.old.content ≡ Err e) }
    ensures follows { OnOk result (DraftFollows draft.old draft.new) }
{
    let mut rest = sets;
    while let [set, more @ ..] = rest {
        set_at(alloc, draft, node, set)?;
        rest = more;
    }
    Ok(())
}
