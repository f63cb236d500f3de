//! Changes of a tree at once: a draft is made of the tree, changed, and put over it as a patch.
ghost use Rattle.std.specs.Prelude.{◌≡◌, ◌≢◌, None, Some, OnOk, OnErr, IfOk, IfErr, IsTrue};
ghost use Rattle.sp_base.specs.Paths.{seg_ok};
ghost use Rattle.sp_base.specs.Texts.{Segments};
ghost use Rattle.resource_tree.specs.Content.{IsGood, empty_node, node_at};
ghost use Rattle.resource_tree.specs.Changes.{clearing, clearing_at, create_fault, creation, creation_at, fixed_fault, has_prop_at, order_fault, removal, removal_at, reordering, reordering_at, set_fault, unset_fault, update, update_at};
ghost use Rattle.resource_tree.specs.Moves.{copy, copy_at, copy_fault, move_fault, relocation, relocation_at};
ghost use Rattle.resource_tree.specs.Patches.{patching};
ghost use Rattle.tree_draft.specs.AtOnce.{HasName, change_fault, changed, changed_at};
ghost use Rattle.tree_draft.specs.Drafts.{DraftFollows, IsSound};

use crate::Draft;
use resource_tree::{Patch, Place, Tree, TreeFault};
use sp_base::{Path, Value};
use std::alloc::Global;

/// A change of a content, with the paths and the names that it is of.
#[derive(Drop)]
pub(crate) enum Change<'a> {
    Create(&'a Path),
    Set(&'a Path, &'a str, Value),
    Unset(&'a Path, &'a str),
    Order(&'a Path, &'a Place),
    Remove(&'a Path),
    /// From the first path to the second.
    Copy(&'a Path, &'a Path),
    /// From the first path to the second.
    Move(&'a Path, &'a Path),
}

/// Makes a node without properties and kids. It stands last among the kids of its parent.
pub fn create(alloc: Global, tree: &mut Tree, path: &Path) -> Result<(), TreeFault>
    ensures allowed { OnOk result (create_fault tree.old path.now ≡ None) }
    ensures ok { OnOk result (tree.new ≡ creation tree.old path.now empty_node) }
    ensures look_ups { OnOk result ((q : Segments) → node_at tree.new q ≡ creation_at tree.old path.now empty_node q) }
    ensures err { IfErr result (λ e. e ≢ TreeFault.NoMemory → create_fault tree.old path.now ≡ Some e) }
    ensures unchanged { OnErr result (tree.new ≡ tree.old) }
{
    make_change(alloc, tree, Change::Create(path))
}

/// Sets a property of a node. The name is one that may be a segment of a path.
pub fn set(
    alloc: Global,
    tree: &mut Tree,
    path: &Path,
    name: &str,
    value: Value,
) -> Result<(), TreeFault>
    requires { IsTrue (seg_ok name.now) }
    ensures allowed { OnOk result (set_fault tree.old path.now name.now ≡ None) }
    ensures ok { OnOk result (tree.new ≡ update tree.old path.now name.now value) }
    ensures look_ups { OnOk result ((q : Segments) → node_at tree.new q ≡ update_at tree.old path.now name.now value q) }
    ensures err { IfErr result (λ e. e ≢ TreeFault.NoMemory → set_fault tree.old path.now name.now ≡ Some e) }
    ensures unchanged { OnErr result (tree.new ≡ tree.old) }
{
    make_change(alloc, tree, Change::Set(path, name, value))
}

/// Takes a property of a node away. The answer says whether it was there.
pub fn unset(alloc: Global, tree: &mut Tree, path: &Path, name: &str) -> Result<bool, TreeFault>
    ensures allowed { OnOk result (unset_fault tree.old path.now ≡ None) }
    ensures was { IfOk result (λ was. was ≡ has_prop_at tree.old path.now name.now) }
    ensures ok { OnOk result (tree.new ≡ clearing tree.old path.now name.now) }
    ensures look_ups { OnOk result ((q : Segments) → node_at tree.new q ≡ clearing_at tree.old path.now name.now q) }
    ensures err { IfErr result (λ e. e ≢ TreeFault.NoMemory → unset_fault tree.old path.now ≡ Some e) }
    ensures unchanged { OnErr result (tree.new ≡ tree.old) }
{
    let was = has_prop(tree, path, name);
    make_change(alloc, tree, Change::Unset(path, name))?;
    Ok(was)
}

/// Puts a node in another place among the kids of its parent.
pub fn order(alloc: Global, tree: &mut Tree, path: &Path, place: &Place) -> Result<(), TreeFault>
    ensures allowed { OnOk result (order_fault tree.old path.now place.now ≡ None) }
    ensures ok { OnOk result (tree.new ≡ reordering tree.old path.now place.now) }
    ensures look_ups { OnOk result ((q : Segments) → node_at tree.new q ≡ reordering_at tree.old path.now place.now q) }
    ensures err { IfErr result (λ e. e ≢ TreeFault.NoMemory → order_fault tree.old path.now place.now ≡ Some e) }
    ensures unchanged { OnErr result (tree.new ≡ tree.old) }
{
    make_change(alloc, tree, Change::Order(path, place))
}

/// Removes a node and all below it.
pub fn remove(alloc: Global, tree: &mut Tree, path: &Path) -> Result<(), TreeFault>
    ensures allowed { OnOk result (fixed_fault tree.old path.now ≡ None) }
    ensures ok { OnOk result (tree.new ≡ removal tree.old path.now) }
    ensures look_ups { OnOk result ((q : Segments) → node_at tree.new q ≡ removal_at tree.old path.now q) }
    ensures err { IfErr result (λ e. e ≢ TreeFault.NoMemory → fixed_fault tree.old path.now ≡ Some e) }
    ensures unchanged { OnErr result (tree.new ≡ tree.old) }
{
    make_change(alloc, tree, Change::Remove(path))
}

/// Copies a node and all below it to another path. The copy stands last among the kids of its
/// parent, and each kid below it in the order that it has.
pub fn copy_to(
    alloc: Global,
    tree: &mut Tree,
    source: &Path,
    target: &Path,
) -> Result<(), TreeFault>
    ensures allowed { OnOk result (copy_fault tree.old source.now target.now ≡ None) }
    ensures ok { OnOk result (tree.new ≡ copy tree.old source.now target.now) }
    ensures look_ups { OnOk result ((q : Segments) → node_at tree.new q ≡ copy_at tree.old source.now target.now q) }
    ensures err { IfErr result (λ e. e ≢ TreeFault.NoMemory → copy_fault tree.old source.now target.now ≡ Some e) }
    ensures unchanged { OnErr result (tree.new ≡ tree.old) }
{
    make_change(alloc, tree, Change::Copy(source, target))
}

/// Moves a node and all below it to another path. The node stands last among the kids of its
/// new parent, and each kid below it in the order that it has.
pub fn move_to(
    alloc: Global,
    tree: &mut Tree,
    source: &Path,
    target: &Path,
) -> Result<(), TreeFault>
    ensures allowed { OnOk result (move_fault tree.old source.now target.now ≡ None) }
    ensures ok { OnOk result (tree.new ≡ relocation tree.old source.now target.now) }
    ensures look_ups { OnOk result ((q : Segments) → node_at tree.new q ≡ relocation_at tree.old source.now target.now q) }
    ensures err { IfErr result (λ e. e ≢ TreeFault.NoMemory → move_fault tree.old source.now target.now ≡ Some e) }
    ensures unchanged { OnErr result (tree.new ≡ tree.old) }
{
    make_change(alloc, tree, Change::Move(source, target))
}

// Whether a node is at a path that has such a property.
fn has_prop(tree: &Tree, path: &Path, name: &str) -> bool
    ensures { result ≡ has_prop_at tree.now path.now name.now }
{
    match tree.node(path) {
        Some(node) => node.props.get(name).is_some(),
        None => false,
    }
}

// Changes a tree: of a draft of it a patch is made, which is put over it once it is whole.
fn make_change(alloc: Global, tree: &mut Tree, change: Change<'_>) -> Result<(), TreeFault>
    requires { HasName change }
    ensures allowed { OnOk result (change_fault tree.old change.entry ≡ None) }
    ensures ok { OnOk result (tree.new ≡ changed tree.old change.entry) }
    ensures look_ups { OnOk result ((q : Segments) → node_at tree.new q ≡ changed_at tree.old change.entry q) }
    ensures err { IfErr result (λ e. e ≢ TreeFault.NoMemory → change_fault tree.old change.entry ≡ Some e) }
    ensures unchanged { OnErr result (tree.new ≡ tree.old) }
{
    let _nodes = tree.len();
    let patch = patch_of(alloc, tree, change)?;
    tree.apply(patch)?;
    Ok(())
}

// The patch that changes a tree, which stays as it is.
fn patch_of(alloc: Global, tree: &Tree, change: Change<'_>) -> Result<Patch, TreeFault>
    requires { HasName change }
    ensures allowed { OnOk result (change_fault tree.now change.entry ≡ None) }
    ensures ok { IfOk result (λ patch. patching tree.now patch ≡ changed tree.now change.entry) }
    ensures good { IfOk result (λ patch. IsGood (patching tree.now patch)) }
    ensures err { IfErr result (λ e. e ≢ TreeFault.NoMemory → change_fault tree.now change.entry ≡ Some e) }
{
    let mut draft = Draft::new(alloc, tree);
    draft.make(alloc, change)?;
    Ok(draft.patch(alloc)?)
}

impl<'a> Draft<'a> {
    // Makes a change.
    fn make(&mut self, alloc: Global, change: Change<'_>) -> Result<(), TreeFault>
        requires sound { IsSound self.old }
        requires named { HasName change }
        ensures allowed { OnOk result (change_fault self.old.content change.entry ≡ None) }
        ensures ok { OnOk result (self.new.content ≡ changed self.old.content change.entry) }
        ensures err { IfErr result (λ e. e ≢ TreeFault.NoMemory → change_fault self.old.content change.entry ≡ Some e) }
        ensures follows { OnOk result (DraftFollows self.old self.new) }
    {
        match change {
            Change::Create(path) => self.create(alloc, path),
            Change::Set(path, name, value) => self.set(alloc, path, name, value),
            Change::Unset(path, name) => self.unset(alloc, path, name),
            Change::Order(path, place) => self.order(alloc, path, place),
            Change::Remove(path) => self.remove(alloc, path),
            Change::Copy(source, target) => self.copy_to(alloc, source, target),
            Change::Move(source, target) => self.move_to(alloc, source, target),
        }
    }
}
