// Kids in another place among their parent's.
ghost use Rattle.std.specs.Prelude.{◌≡◌, ◌≢◌, None, Some, OnOk, IfOk, IfErr};
ghost use Rattle.resource_tree.specs.Changes.{fixed_fault, kids_at, order_fault, reordering};
ghost use Rattle.resource_tree.specs.Kids.{kids_in_order};
ghost use Rattle.tree_draft.specs.Drafts.{DraftFollows, IsSound};

use crate::Draft;
use crate::kids::kids_in_order;
use resource_tree::{Place, TreeFault, no_such};
use sp_base::{Mem, Path, TextList};
use std::alloc::Global;

impl<'a> Draft<'a> {
    /// Puts a node in another place among the kids of its parent.
    pub fn order(&mut self, alloc: Global, path: &Path, place: &Place) -> Result<(), TreeFault>
        requires { IsSound self.old }
        ensures allowed { OnOk result (order_fault self.old.content path.now place.now ≡ None) }
        ensures ok { OnOk result (self.new.content ≡ reordering self.old.content path.now place.now) }
        ensures err { IfErr result (λ e. e ≢ TreeFault.NoMemory → order_fault self.old.content path.now place.now ≡ Some e) }
        ensures unchanged { IfErr result (λ e. e ≢ TreeFault.NoMemory → self.new ≡ self.old) }
        ensures follows { OnOk result (DraftFollows self.old self.new) }
    {
        let parent = path.parent(alloc)?;
        self.check_fixed(alloc, path)?;
        let Some(kids) = kids_with(self, alloc, &parent, path.name(), place)? else {
            return Err(TreeFault::NoSibling);
        };
        self.put_kids(alloc, &parent, kids)?;
        Ok(())
    }

    // Whether a node may be taken from its place.
    pub(crate) fn check_fixed(&self, alloc: Global, path: &Path) -> Result<(), TreeFault>
        ensures ok { OnOk result (fixed_fault self.now.content path.now ≡ None) }
        ensures err { IfErr result (λ e. e ≢ TreeFault.NoMemory → fixed_fault self.now.content path.now ≡ Some e) }
    {
        if self.node(path).is_none() {
            return Err(no_such(alloc, path));
        }
        if path.depth() == 0 {
            return Err(TreeFault::RootFixed);
        }
        Ok(())
    }
}

// The kids' names of the node at a path, with one of them in another place.
fn kids_with(
    draft: &Draft,
    alloc: Global,
    path: &Path,
    name: &str,
    place: &Place,
) -> Mem<Option<TextList>>
    ensures { IfOk result (λ kids. kids ≡ kids_in_order name.now place.now (kids_at draft.now.content path.now)) }
{
    let Some(node) = draft.node(path) else {
        return kids_in_order(alloc, &[], name, place);
    };
    let kids = node.kids(alloc)?;
    kids_in_order(alloc, &kids, name, place)
}
