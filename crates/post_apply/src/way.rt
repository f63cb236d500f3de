//! The nodes on the way to a path.
ghost use Rattle.std.specs.Prelude.{◌≡◌, ◌≢◌, OnOk, IfErr, Ok, Err};
ghost use Rattle.tree_draft.specs.Drafts.{DraftFollows, IsSound};
ghost use Rattle.post_apply.specs.Steps as step;

use crate::ApplyFault;
use crate::steps::make;
use sp_base::Path;
use std::alloc::Global;
use tree_draft::Draft;

// Makes a node where none is there.
fn make_missing(alloc: Global, draft: &mut Draft, path: &Path) -> Result<(), ApplyFault>
    requires { IsSound draft.old }
    ensures ok { OnOk result (step.with_node draft.old.content path.now ≡ Ok draft.new.content) }
    ensures err { IfErr result (λ e. e ≢ ApplyFault.NoMemory → step.with_node draft.old.content path.now ≡ Err e) }
    ensures follows { OnOk result (DraftFollows draft.old draft.new) }
{
    if draft.node(path).is_some() {
        return Ok(());
    }
    make(alloc, draft, path)
}

/// Makes the node at a path and all above it, where they aren't there.
pub fn make_way(alloc: Global, draft: &mut Draft, path: &Path) -> Result<(), ApplyFault>
    requires { IsSound draft.old }
    ensures ok { OnOk result (step.with_way path.now draft.old.content ≡ Ok draft.new.content) }
    ensures err { IfErr result (λ e. e ≢ ApplyFault.NoMemory → step.with_way path.now draft.old.content ≡ Err e) }
    ensures follows { OnOk result (DraftFollows draft.old draft.new) }
{
    for n in 0..path.depth() {
        let above = path.first(alloc, n + 1)?;
        make_missing(alloc, draft, &above)?;
    }
    Ok(())
}
