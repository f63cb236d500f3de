// Properties that are set or taken away.
ghost use Rattle.std.specs.Prelude.{◌≡◌, ◌≢◌, Some, None, OnOk, IfErr, IsTrue};
ghost use Rattle.sp_base.specs.Paths.{seg_ok};
ghost use Rattle.resource_tree.specs.Content.{kid};
ghost use Rattle.resource_tree.specs.Changes.{clearing, set_fault, unset_fault, update};
ghost use Rattle.tree_draft.specs.Drafts.{DraftFollows, IsSound};

use crate::Draft;
use crate::edit::Edit;
use resource_tree::{TreeFault, no_such};
use sp_base::{Path, TextBuf, Value};
use std::alloc::Global;

impl<'a> Draft<'a> {
    /// Sets a property of a node. The name is one that may be a segment of a path.
    pub fn set(
        &mut self,
        alloc: Global,
        path: &Path,
        name: &str,
        value: Value,
    ) -> Result<(), TreeFault>
        requires sound { IsSound self.old }
        requires name { IsTrue (seg_ok name.now) }
        ensures allowed { OnOk result (set_fault self.old.content path.now name.now ≡ None) }
        ensures ok { OnOk result (self.new.content ≡ update self.old.content path.now name.now value) }
        ensures err { IfErr result (λ e. e ≢ TreeFault.NoMemory → set_fault self.old.content path.now name.now ≡ Some e) }
        ensures unchanged { IfErr result (λ e. e ≢ TreeFault.NoMemory → self.new ≡ self.old) }
        ensures follows { OnOk result (DraftFollows self.old self.new) }
    {
        self.check_set(alloc, path, name)?;
        let name = TextBuf::of(alloc, name)?;
        self.change(alloc, path, Edit::Set(name, value))?;
        Ok(())
    }

    /// Takes a property of a node away, if it is there.
    pub fn unset(&mut self, alloc: Global, path: &Path, name: &str) -> Result<(), TreeFault>
        requires { IsSound self.old }
        ensures allowed { OnOk result (unset_fault self.old.content path.now ≡ None) }
        ensures ok { OnOk result (self.new.content ≡ clearing self.old.content path.now name.now) }
        ensures err { IfErr result (λ e. e ≢ TreeFault.NoMemory → unset_fault self.old.content path.now ≡ Some e) }
        ensures unchanged { IfErr result (λ e. e ≢ TreeFault.NoMemory → self.new ≡ self.old) }
        ensures follows { OnOk result (DraftFollows self.old self.new) }
    {
        if self.node(path).is_none() {
            return Err(no_such(alloc, path));
        }
        let name = TextBuf::of(alloc, name)?;
        self.change(alloc, path, Edit::Unset(name))?;
        Ok(())
    }

    // Whether a value may be set under a name.
    fn check_set(&self, alloc: Global, path: &Path, name: &str) -> Result<(), TreeFault>
        requires sound { IsSound self.now }
        requires name { IsTrue (seg_ok name.now) }
        ensures ok { OnOk result (set_fault self.now.content path.now name.now ≡ None) }
        ensures err { IfErr result (λ e. e ≢ TreeFault.NoMemory → set_fault self.now.content path.now name.now ≡ Some e) }
    {
        if self.node(path).is_none() {
            return Err(no_such(alloc, path));
        }
        let Some(kid) = path.child_or_none(alloc, name)? else {
            return Ok(());
        };
        if self.node(&kid).is_some() {
            return Err(TreeFault::Taken(kid));
        }
        Ok(())
    }
}
