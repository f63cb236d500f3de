//! The paths of spots.
ghost use Rattle.std.specs.Prelude.{◌≡◌, ◌≢◌, IfOk, IfErr, Ok, Err};
ghost use Rattle.post_apply.specs.Steps as step;

use crate::ApplyFault;
use post_plan::Spot;
use resource_tree::TreeFault;
use sp_base::Path;
use std::alloc::Global;

/// A path, or the fault of one that would have more than 64 segments.
pub fn or_too_deep(path: Option<Path>) -> Result<Path, ApplyFault>
    ensures ok { IfOk result (λ p. step.or_too_deep path ≡ Ok p) }
    ensures err { IfErr result (λ e. step.or_too_deep path ≡ Err e) }
{
    match path {
        Some(path) => Ok(path),
        None => Err(ApplyFault::Tree(TreeFault::TooDeep)),
    }
}

/// The path of a spot, for a node.
pub fn path_of_spot(alloc: Global, node: &Path, spot: &Spot) -> Result<Path, ApplyFault>
    ensures ok { IfOk result (λ p. step.path_of_spot node.now spot.now ≡ Ok p) }
    ensures err { IfErr result (λ e. e ≢ ApplyFault.NoMemory → step.path_of_spot node.now spot.now ≡ Err e) }
{
    if spot.at_target {
        or_too_deep(node.join_or_none(alloc, &spot.path)?)
    } else {
        Ok(spot.path.duplicate(alloc)?)
    }
}
