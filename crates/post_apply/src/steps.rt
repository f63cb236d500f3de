//! Single changes of a draft, as steps of an operation.
ghost use Rattle.std.specs.Prelude.{◌≡◌, ◌≢◌, OnOk, IfErr, IsTrue, Ok, Err, true, false};
ghost use Rattle.sp_base.specs.Paths.{seg_ok};
ghost use Rattle.tree_draft.specs.Drafts.{DraftFollows, IsSound};
ghost use Rattle.post_apply.specs.Steps as step;
ghost use Rattle.post_apply.specs.Removals.{removal_outcome};
ghost use Rattle.post_apply.specs.Carries.{carry_outcome};
ghost use Rattle.post_apply.specs.Posting.{content_placed};
ghost use Rattle.post_apply.specs.Values.{set_outcome};

use crate::ApplyFault;
use resource_tree::Place;
use sp_base::{Path, Value};
use std::alloc::Global;
use tree_draft::Draft;

/// Makes a node without properties and kids.
pub fn make(alloc: Global, draft: &mut Draft, path: &Path) -> Result<(), ApplyFault>
    requires { IsSound draft.old }
    ensures ok { OnOk result (step.creation_outcome draft.old.content path.now ≡ Ok draft.new.content) }
    ensures err { IfErr result (λ e. e ≢ ApplyFault.NoMemory → step.creation_outcome draft.old.content path.now ≡ Err e) }
    ensures follows { OnOk result (DraftFollows draft.old draft.new) }
{
    draft.create(alloc, path)?;
    Ok(())
}

/// Removes a node and all below it.
pub fn remove(alloc: Global, draft: &mut Draft, path: &Path) -> Result<(), ApplyFault>
    requires { IsSound draft.old }
    ensures ok { OnOk result (removal_outcome draft.old.content path.now ≡ Ok draft.new.content) }
    ensures err { IfErr result (λ e. e ≢ ApplyFault.NoMemory → removal_outcome draft.old.content path.now ≡ Err e) }
    ensures follows { OnOk result (DraftFollows draft.old draft.new) }
{
    draft.remove(alloc, path)?;
    Ok(())
}

fn order(alloc: Global, draft: &mut Draft, path: &Path, place: &Place) -> Result<(), ApplyFault>
    requires { IsSound draft.old }
    ensures ok { OnOk result (content_placed path.now (Some place.now) draft.old.content ≡ Ok draft.new.content) }
    ensures err { IfErr result (λ e. e ≢ ApplyFault.NoMemory → content_placed path.now (Some place.now) draft.old.content ≡ Err e) }
    ensures follows { OnOk result (DraftFollows draft.old draft.new) }
{
    draft.order(alloc, path, place)?;
    Ok(())
}

/// Puts a node in another place among its siblings, where one is asked for.
pub fn place(
    alloc: Global,
    draft: &mut Draft,
    path: &Path,
    place: &Option<Place>,
) -> Result<(), ApplyFault>
    requires { IsSound draft.old }
    ensures ok { OnOk result (content_placed path.now place.now draft.old.content ≡ Ok draft.new.content) }
    ensures err { IfErr result (λ e. e ≢ ApplyFault.NoMemory → content_placed path.now place.now draft.old.content ≡ Err e) }
    ensures follows { OnOk result (DraftFollows draft.old draft.new) }
{
    match place {
        Some(place) => order(alloc, draft, path, place),
        None => Ok(()),
    }
}

/// Copies a node and all below it.
pub fn copy(alloc: Global, draft: &mut Draft, from: &Path, to: &Path) -> Result<(), ApplyFault>
    requires { IsSound draft.old }
    ensures ok { OnOk result (carry_outcome false from.now to.now draft.old.content ≡ Ok draft.new.content) }
    ensures err { IfErr result (λ e. e ≢ ApplyFault.NoMemory → carry_outcome false from.now to.now draft.old.content ≡ Err e) }
    ensures follows { OnOk result (DraftFollows draft.old draft.new) }
{
    draft.copy_to(alloc, from, to)?;
    Ok(())
}

/// Moves a node and all below it.
pub fn relocate(alloc: Global, draft: &mut Draft, from: &Path, to: &Path) -> Result<(), ApplyFault>
    requires { IsSound draft.old }
    ensures ok { OnOk result (carry_outcome true from.now to.now draft.old.content ≡ Ok draft.new.content) }
    ensures err { IfErr result (λ e. e ≢ ApplyFault.NoMemory → carry_outcome true from.now to.now draft.old.content ≡ Err e) }
    ensures follows { OnOk result (DraftFollows draft.old draft.new) }
{
    draft.move_to(alloc, from, to)?;
    Ok(())
}

/// Sets a property of a node that is there.
pub fn set(
    alloc: Global,
    draft: &mut Draft,
    path: &Path,
    name: &str,
    value: Value,
) -> Result<(), ApplyFault>
    requires sound { IsSound draft.old }
    requires name { IsTrue (seg_ok name.now) }
    ensures ok { OnOk result (set_outcome path.now name.now value draft.old.content ≡ Ok draft.new.content) }
    ensures err { IfErr result (λ e. e ≢ ApplyFault.NoMemory → set_outcome path.now name.now value draft.old.content ≡ Err e) }
    ensures follows { OnOk result (DraftFollows draft.old draft.new) }
{
    draft.set(alloc, path, name, value)?;
    Ok(())
}
