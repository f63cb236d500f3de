//! What a POST makes of the content.
ghost use Rattle.std.specs.Prelude.{◌≡◌, ◌≢◌, IfOk, IfErr, OnOk, OnErr, Ok, Err, false};
ghost use Rattle.tree_draft.specs.Drafts.{DraftFollows, IsSound};
ghost use Rattle.resource_tree.specs.Content.{IsGood};
ghost use Rattle.resource_tree.specs.Patches.{patching};
ghost use Rattle.post_apply.specs.Posting as spec;

use crate::carries::carry;
use crate::modify::modify;
use crate::steps::remove;
use crate::{ApplyFault, PostReport};
use post_plan::Op;
use resource_tree::{Patch, Tree};
use sp_base::{Mem, Path};
use std::alloc::Global;
use tree_draft::Draft;

/// What an operation puts over a tree, and what is told of it.
#[derive(Drop)]
pub struct Planned {
    pub patch: Patch,
    pub report: PostReport,
}

fn unchanged(alloc: Global, path: &Path) -> Mem<PostReport>
    ensures { IfOk result (λ report. report ≡ record { created = false; path = path.now }) }
{
    Ok(PostReport {
        created: false,
        path: path.duplicate(alloc)?,
    })
}

fn delete(alloc: Global, draft: &mut Draft, path: &Path) -> Result<PostReport, ApplyFault>
    requires { IsSound draft.old }
    ensures ok { IfOk result (λ report. spec.remove path.now draft.old.content ≡ Ok (record { content = draft.new.content; report = report })) }
    ensures err { IfErr result (λ e. e ≢ ApplyFault.NoMemory → spec.remove path.now draft.old.content ≡ Err e) }
    ensures follows { OnOk result (DraftFollows draft.old draft.new) }
{
    remove(alloc, draft, path)?;
    Ok(unchanged(alloc, path)?)
}

fn post(alloc: Global, draft: &mut Draft, op: &Op) -> Result<PostReport, ApplyFault>
    requires { IsSound draft.old }
    ensures ok { IfOk result (λ report. spec.post_outcome op.now draft.old.content ≡ Ok (record { content = draft.new.content; report = report })) }
    ensures err { IfErr result (λ e. e ≢ ApplyFault.NoMemory → spec.post_outcome op.now draft.old.content ≡ Err e) }
    ensures follows { OnOk result (DraftFollows draft.old draft.new) }
{
    match op {
        Op::Nop(path) => Ok(unchanged(alloc, path)?),
        Op::Delete(path) => delete(alloc, draft, path),
        Op::Copy(op) => carry(alloc, draft, false, op),
        Op::Move(op) => carry(alloc, draft, true, op),
        Op::Modify(op) => modify(alloc, draft, op),
    }
}

/// What an operation puts over a tree, which stays as it is, or the first cause for which it is refused. It costs what it changes.
pub fn patch_of(alloc: Global, tree: &Tree, op: &Op) -> Result<Planned, ApplyFault>
    ensures ok { IfOk result (λ p. spec.post_outcome op.now tree.now ≡ Ok (record { content = patching tree.now p.patch; report = p.report })) }
    ensures err { IfErr result (λ e. e ≢ ApplyFault.NoMemory → spec.post_outcome op.now tree.now ≡ Err e) }
    ensures good { IfOk result (λ p. IsGood (patching tree.now p.patch)) }
{
    let mut draft = Draft::new(alloc, tree);
    let report = post(alloc, &mut draft, op)?;
    let patch = draft.patch(alloc)?;
    Ok(Planned { patch, report })
}

/// Does an operation on a tree, all of it or nothing.
pub fn apply(alloc: Global, tree: &mut Tree, op: &Op) -> Result<PostReport, ApplyFault>
    ensures ok { IfOk result (λ report. spec.post_outcome op.now tree.old ≡ Ok (record { content = tree.new; report = report })) }
    ensures err { IfErr result (λ e. e ≢ ApplyFault.NoMemory → spec.post_outcome op.now tree.old ≡ Err e) }
    ensures unchanged { OnErr result (tree.new ≡ tree.old) }
{
    let Planned { patch, report } = patch_of(alloc, tree, op)?;
    tree.apply(patch)?;
    Ok(report)
}
