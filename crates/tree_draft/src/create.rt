// New nodes.
ghost use Rattle.std.specs.Prelude.{◌≡◌, ◌≢◌, ◌-◌, Some, None, OnOk, IfErr, IsTrue, is_some, true};
ghost use Rattle.std.specs.List.Sorted.{IsStrictlySortedBy};
ghost use Rattle.std.specs.Map.{keys_of};
ghost use Rattle.sp_base.specs.Paths.{is_path};
ghost use Rattle.resource_tree.specs.declared.patch.PatchNode.TheVariants as patch_node;
ghost use Rattle.resource_tree.specs.Content.{by_path, empty_node, name_of, node_at, parent_of};
ghost use Rattle.resource_tree.specs.Changes.{change_at, create_fault, creation, with_kid};
ghost use Rattle.resource_tree.specs.Patches.{over};
ghost use Rattle.tree_draft.specs.Drafts.{DraftFollows, IsCounted, IsSound};

use crate::Draft;
use crate::edit::Edit;
use crate::held::HeldEntry;
use resource_tree::{MOST_NODES, TreeFault, name_taken, no_such, node_exists};
use sp_base::{Mem, Path, TextBuf};
use std::alloc::Global;

impl<'a> Draft<'a> {
    /// Makes a node without properties and kids. It stands last among the kids of its parent.
    pub fn create(&mut self, alloc: Global, path: &Path) -> Result<(), TreeFault>
        requires { IsSound self.old }
        ensures allowed { OnOk result (create_fault self.old.content path.now ≡ None) }
        ensures ok { OnOk result (self.new.content ≡ creation self.old.content path.now empty_node) }
        ensures err { IfErr result (λ e. e ≢ TreeFault.NoMemory → create_fault self.old.content path.now ≡ Some e) }
        ensures unchanged { IfErr result (λ e. e ≢ TreeFault.NoMemory → self.new ≡ self.old) }
        ensures follows { OnOk result (DraftFollows self.old self.new) }
    {
        let parent = path.parent(alloc)?;
        self.check_create(alloc, path, &parent)?;
        self.put_fresh(alloc, path)?;
        self.add_kid(alloc, &parent, path)?;
        Ok(())
    }

    // Sets a node without properties and kids at a path.
    fn put_fresh(&mut self, alloc: Global, path: &Path) -> Mem<()>
        ensures content { OnOk result (self.new.content ≡ over self.old.content path.now (patch_node.Node empty_node)) }
        ensures counted { OnOk result (IsCounted self.old → IsCounted self.new) }
        ensures tree { self.new.tree ≡ self.old.tree }
    {
        let seeds = self.tree.seeds();
        let place = path.duplicate(alloc)?;
        self.put(place, HeldEntry::fresh(alloc, seeds))
    }

    // Names the node at a path last among the kids of its parent.
    pub(crate) fn add_kid(&mut self, alloc: Global, parent: &Path, path: &Path) -> Mem<()>
        requires { is_some (node_at self.old.content parent.now) ≡ true }
        ensures content { OnOk result (self.new.content ≡ change_at self.old.content parent.now (with_kid (name_of path.now))) }
        ensures counted { OnOk result (IsCounted self.old → IsCounted self.new) }
        ensures tree { self.new.tree ≡ self.old.tree }
        ensures ordered { OnOk result (IsStrictlySortedBy by_path (keys_of self.new.content)) }
        ensures valid { OnOk result (IsTrue (is_path path.now)) }
    {
        let name = TextBuf::of(alloc, path.name())?;
        self.change(alloc, parent, Edit::Kid(name))
    }

    // Whether a node may be made.
    fn check_create(&self, alloc: Global, path: &Path, parent: &Path) -> Result<(), TreeFault>
        requires sound { IsSound self.now }
        requires above { parent.now ≡ parent_of path.now }
        ensures ok { OnOk result (create_fault self.now.content path.now ≡ None) }
        ensures err { IfErr result (λ e. e ≢ TreeFault.NoMemory → create_fault self.now.content path.now ≡ Some e) }
    {
        let Some(above) = self.node(parent) else {
            return Err(no_such(alloc, parent));
        };
        if self.node(path).is_some() {
            return Err(node_exists(alloc, path));
        }
        if above.props().get(path.name()).is_some() {
            return Err(name_taken(alloc, path));
        }
        if self.len() >= MOST_NODES {
            return Err(TreeFault::FullTree);
        }
        Ok(())
    }
}
