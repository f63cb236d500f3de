//! The paths at which a resource is known, as a decomposition asks for them.
ghost use Rattle.std.specs.Prelude.{◌≡◌, ◌≤◌, ◌+◌, Bool, true, length, IfOk};
ghost use Rattle.sp_base.specs.Paths.{is_under, parent_of};
ghost use Rattle.sp_base.specs.Texts.{Segments};

use sp_base::{Mem, Path};
use std::alloc::Global;

/// Tells which paths have a resource.
pub trait Known {
    /// Whether a resource is at a path.
    ghost known: { Self → Segments → Bool };

    fn has(&self, alloc: Global, path: &Path) -> Mem<bool>
        ensures { IfOk result (λ there. there ≡ known self.now path.now) };

    /// How deep it is worth to look along a path: a number of segments that no known path has more than one above, if its parent
    /// is the path or an ancestor of it. In a tree it is the depth of the deepest of these that is there; the depth of the path is
    /// always right.
    fn reach(&self, alloc: Global, path: &Path) -> Mem<usize>
        ensures { IfOk result (λ n. (other : Segments) → known self.now other ≡ true → is_under path.now (parent_of other) ≡ true → length other ≤ n + 1) }
    {
        Ok(path.depth())
    }
}
