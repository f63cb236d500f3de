// A node that is removed with all below it.
ghost use Rattle.std.specs.Prelude.{◌≡◌, ◌≢◌, None, Some, OnOk, IfErr, is_some, ◌&&◌};
ghost use Rattle.std.specs.List.{list_any};
ghost use Rattle.std.specs.List.Sorted.{IsStrictlySortedBy};
ghost use Rattle.std.specs.Map.{keys_of};
ghost use Rattle.sp_base.specs.Paths.{is_under};
ghost use Rattle.sp_base.specs.Texts.{Segments};
ghost use Rattle.resource_tree.specs.Content.{by_path, node_at, same_path};
ghost use Rattle.resource_tree.specs.Changes.{fixed_fault, removal, without_under};
ghost use Rattle.tree_draft.specs.Drafts.{DraftFollows, IsSound, IsCounted};

use crate::Draft;
use crate::edit::Edit;
use crate::held::HeldEntry;
use crate::part::paths_under;
use resource_tree::TreeFault;
use sp_base::{Mem, Path, TextBuf};
use std::alloc::Global;

impl<'a> Draft<'a> {
    /// Removes a node and all below it.
    pub fn remove(&mut self, alloc: Global, path: &Path) -> Result<(), TreeFault>
        requires { IsSound self.old }
        ensures allowed { OnOk result (fixed_fault self.old.content path.now ≡ None) }
        ensures ok { OnOk result (self.new.content ≡ removal self.old.content path.now) }
        ensures err { IfErr result (λ e. e ≢ TreeFault.NoMemory → fixed_fault self.old.content path.now ≡ Some e) }
        ensures unchanged { IfErr result (λ e. e ≢ TreeFault.NoMemory → self.new ≡ self.old) }
        ensures follows { OnOk result (DraftFollows self.old self.new) }
    {
        self.check_fixed(alloc, path)?;
        let paths = paths_under(self, alloc, path)?;
        self.remove_part(alloc, path, &paths)?;
        Ok(())
    }

    // Takes the nodes at a path and under it away, whose paths are given, and the name from the parent's kids.
    pub(crate) fn remove_part(&mut self, alloc: Global, path: &Path, paths: &[Path]) -> Mem<()>
        requires sound { IsSound self.old }
        requires fixed { fixed_fault self.old.content path.now ≡ None }
        requires all { (q : Segments) → list_any (same_path q) paths.now ≡ (is_some (node_at self.old.content q) && is_under q path.now) }
        ensures ok { OnOk result (self.new.content ≡ removal self.old.content path.now) }
        ensures follows { OnOk result (DraftFollows self.old self.new) }
    {
        let parent = path.parent(alloc)?;
        let name = TextBuf::of(alloc, path.name())?;
        self.change(alloc, &parent, Edit::WithoutKid(name))?;
        self.drop_nodes(alloc, path, paths)?;
        Ok(())
    }

    // Takes the nodes at a path and under it away, whose paths are given.
    fn drop_nodes(&mut self, alloc: Global, path: &Path, paths: &[Path]) -> Mem<()>
        requires all { (q : Segments) → list_any (same_path q) paths.now ≡ (is_some (node_at self.old.content q) && is_under q path.now) }
        requires in_order { IsStrictlySortedBy by_path (keys_of self.old.content) }
        requires counted { IsCounted self.old }
        ensures after { OnOk result (self.new.content ≡ without_under self.old.content path.now) }
        ensures ordered { OnOk result (IsStrictlySortedBy by_path (keys_of self.new.content)) }
        ensures counted { OnOk result (IsCounted self.new) }
        ensures tree { OnOk result (self.new.tree ≡ self.old.tree) }
    {
        for below in paths {
            self.put(below.duplicate(alloc)?, HeldEntry::gone())?;
        }
        Ok(())
    }
}
