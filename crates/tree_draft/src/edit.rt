//! Changes of one node.
ghost use Rattle.std.specs.Prelude.{◌≡◌, OnOk};
ghost use Rattle.tree_draft.specs.Edits as spec;

use crate::held::HeldNode;
use sp_base::{Mem, TextBuf, Value};
use std::alloc::Global;

#[derive(Drop)]
pub(crate) enum Edit {
    /// One kid more, which stands last.
    Kid(TextBuf),
    /// One kid less.
    WithoutKid(TextBuf),
    Set(TextBuf, Value),
    Unset(TextBuf),
}

impl HeldNode {
    /// Changes the node.
    pub(crate) fn edit(&mut self, alloc: Global, edit: Edit) -> Mem<()>
        ensures { OnOk result (self.new ≡ spec.edited_node edit self.old) }
    {
        match edit {
            Edit::Kid(name) => self.kids.push(name),
            Edit::WithoutKid(name) => self.kids.remove(alloc, name.text()),
            Edit::Set(name, value) => self.props.put_named(name, value),
            Edit::Unset(name) => {
                drop(self.props.remove(name.text()));
                Ok(())
            }
        }
    }
}
