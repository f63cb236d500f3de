// A node that is moved with all below it to another path.
ghost use Rattle.std.specs.Prelude.{◌≡◌, ◌≢◌, None, Some, OnOk, IfErr};
ghost use Rattle.resource_tree.specs.Content.{parent_of};
ghost use Rattle.resource_tree.specs.Moves.{ends_fault, move_fault, relocation};
ghost use Rattle.tree_draft.specs.Drafts.{DraftFollows, IsSound};

use crate::Draft;
use crate::copy::part_there;
use crate::part::paths_under;
use resource_tree::{TreeFault, no_such};
use sp_base::Path;
use std::alloc::Global;

impl<'a> Draft<'a> {
    /// Moves a node and all below it to another path. The node stands last among the kids of its
    /// new parent, and each kid below it in the order that it has.
    pub fn move_to(&mut self, alloc: Global, source: &Path, target: &Path) -> Result<(), TreeFault>
        requires { IsSound self.old }
        ensures allowed { OnOk result (move_fault self.old.content source.now target.now ≡ None) }
        ensures ok { OnOk result (self.new.content ≡ relocation self.old.content source.now target.now) }
        ensures err { IfErr result (λ e. e ≢ TreeFault.NoMemory → move_fault self.old.content source.now target.now ≡ Some e) }
        ensures unchanged { IfErr result (λ e. e ≢ TreeFault.NoMemory → self.new ≡ self.old) }
        ensures follows { OnOk result (DraftFollows self.old self.new) }
    {
        let parent = target.parent(alloc)?;
        self.check_ends(alloc, source, target, &parent)?;
        self.move_part(alloc, source, target, &parent)
    }

    // Moves a node and all below it to a path where it may go, if they fit.
    fn move_part(
        &mut self,
        alloc: Global,
        source: &Path,
        target: &Path,
        parent: &Path,
    ) -> Result<(), TreeFault>
        requires sound { IsSound self.old }
        requires free { ends_fault self.old.content source.now target.now ≡ None }
        requires parent { parent.now ≡ parent_of target.now }
        ensures allowed { OnOk result (move_fault self.old.content source.now target.now ≡ None) }
        ensures ok { OnOk result (self.new.content ≡ relocation self.old.content source.now target.now) }
        ensures err { IfErr result (λ e. e ≢ TreeFault.NoMemory → move_fault self.old.content source.now target.now ≡ Some e) }
        ensures unchanged { IfErr result (λ e. e ≢ TreeFault.NoMemory → self.new ≡ self.old) }
        ensures follows { OnOk result (DraftFollows self.old self.new) }
    {
        let paths = paths_under(self, alloc, source)?;
        let part = part_there(self, alloc, source, target, &paths)?;
        self.remove_part(alloc, source, &paths)?;
        self.put_part(alloc, parent, target, part)?;
        Ok(())
    }

    // Whether a node may go to a path.
    fn check_ends(
        &self,
        alloc: Global,
        source: &Path,
        target: &Path,
        parent: &Path,
    ) -> Result<(), TreeFault>
        requires { parent.now ≡ parent_of target.now }
        ensures ok { OnOk result (ends_fault self.now.content source.now target.now ≡ None) }
        ensures err { IfErr result (λ e. e ≢ TreeFault.NoMemory → ends_fault self.now.content source.now target.now ≡ Some e) }
    {
        if self.node(source).is_none() {
            return Err(no_such(alloc, source));
        }
        if self.node(parent).is_none() {
            return Err(no_such(alloc, parent));
        }
        if source.depth() == 0 {
            return Err(TreeFault::RootFixed);
        }
        self.check_target(alloc, source, target, parent)
    }
}
