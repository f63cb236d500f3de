//! Where scripts are looked up: in a tree, or in the index of one.
ghost use Rattle.std.specs.Prelude.{◌≡◌, Bool, IfOk};
ghost use Rattle.sp_base.specs.Texts.{Segments};

use crate::ScriptIndex;
use crate::script::script_text;
use crate::texts::is_script_name;
use resource_tree::Tree;
use sp_base::{Mem, Path};
use std::alloc::Global;

/// Tells the paths at which there are scripts.
pub(crate) trait Scripts {
    /// Whether a script is at a path.
    ghost tells: { Self → Segments → Bool };

    fn has(&self, alloc: Global, path: &Path) -> Mem<bool>
        ensures { IfOk result (λ b. b ≡ tells self.now path.now) };
}

impl Scripts for Tree {
    ghost use Rattle.script_rank.specs.Ranking.{is_script};

    ghost tells = { is_script };

    // Whether a node is there that has a script's name and text.
    fn has(&self, alloc: Global, path: &Path) -> Mem<bool> {
        if !is_script_name(path.name()) || self.node(path).is_none() {
            return Ok(false);
        }
        Ok(script_text(alloc, self, path)?.is_some())
    }
}

impl Scripts for ScriptIndex {
    ghost use Rattle.script_rank.specs.Index.{has_path};

    ghost tells = { λ index path. has_path index.scripts path };

    fn has(&self, _alloc: Global, path: &Path) -> Mem<bool> {
        Ok(self.lists(path))
    }
}
