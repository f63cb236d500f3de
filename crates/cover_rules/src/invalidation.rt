//! What an invalidation asks for.
ghost use Rattle.std.specs.Prelude.{◌≡◌, IfOk};

use sp_base::{Mem, Path};
use std::alloc::Global;

/// What was done to the content at the handle (Adobe Dispatcher manual, "Invalidating Cached Pages From AEM": `CQ-Action`).
#[derive(Clone, Copy, PartialEq, Eq, Debug, Drop)]
pub enum Action {
    Activate,
    Deactivate,
    Delete,
}

/// A request to delete pages and to touch .stat files.
#[derive(Drop)]
pub struct Invalidation {
    pub action: Action,
    /// The path of the content, mangled or not (`CQ-Handle`).
    pub handle: Path,
    /// Whether no .stat file is touched (`CQ-Action-Scope: ResourceOnly`).
    pub only: bool,
}

impl Invalidation {
    pub fn duplicate(&self, alloc: Global) -> Mem<Invalidation>
        ensures { IfOk result (λ inv. inv ≡ self.now) }
    {
        Ok(Invalidation {
            action: self.action,
            handle: self.handle.duplicate(alloc)?,
            only: self.only,
        })
    }
}
