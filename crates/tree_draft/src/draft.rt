//! A tree with changes over it, which it doesn't know yet.
ghost use Rattle.std.specs.Prelude.{◌≡◌, ◌+◌, Some, None, OnOk, IfOk, true, false, length, is_some, option_copied, option_map};
ghost use Rattle.std.specs.List.Sorted.{IsStrictlySortedBy};
ghost use Rattle.std.specs.Map.{keys_of};
ghost use Rattle.resource_tree.specs.Content.{by_path, node_at, same_path};
ghost use Rattle.resource_tree.specs.Changes.{change_at, with_kids};
ghost use Rattle.resource_tree.specs.declared.patch.PatchNode.TheVariants as patch_node;
ghost use Rattle.resource_tree.specs.Patches.{left_by, over, patching};
ghost use Rattle.tree_draft.specs.Drafts.{IsCounted, IsSound};
ghost use Rattle.tree_draft.specs.Edits.{one_if, is_node, edited_node};
ghost use Rattle.sp_base.specs.Texts.{Segments};

use crate::DraftNode;
use crate::edit::Edit;
use crate::held::{HeldEntry, HeldNode};
use indexmap::IndexMap;
use resource_tree::{Node, Tree};
use sp_base::{Mem, NoMemory, Path, PropList, TextList};
use std::alloc::Global;
use std::hash::RandomState;
use std::marker::Model;

/// A tree and what is to stand at some of its paths. Contracts see the content that the tree will have, and the count of its nodes.
#[derive(Drop)]
pub struct Draft<'a> {
    pub(crate) tree: &'a Tree,
    pub(crate) entries: IndexMap<Path, HeldEntry, RandomState>,
    pub(crate) count: usize,
}

impl<'a> Model for Draft<'a> {
    ghost use Rattle.resource_tree.specs.Patches.{patching};
    ghost use Rattle.tree_draft.specs.Drafts.{DraftedContent};

    ghost Value = { DraftedContent };

    ghost view = { λ d. record { tree = d.tree.now; content = patching d.tree.now d.entries.entries; count = d.count } };
}

impl<'a> Draft<'a> {
    /// The tree as it is.
    pub fn new(alloc: Global, tree: &'a Tree) -> Draft<'a>
        ensures tree { result.tree ≡ tree.now }
        ensures content { result.content ≡ tree.now }
        ensures sound { IsSound result }
    {
        Draft {
            tree,
            entries: IndexMap::with_hasher(alloc, tree.seeds()),
            count: tree.len(),
        }
    }

    /// The count of nodes.
    pub fn len(&self) -> usize
        requires { IsCounted self.now }
        ensures { result ≡ length self.now.content }
    {
        self.count
    }

    /// The node that is to stand at a path.
    pub fn node(&self, path: &Path) -> Option<DraftNode<'_>>
        ensures value { result ≡ node_at self.now.content path.now }
        ensures ordered { IsStrictlySortedBy by_path (keys_of self.now.content) }
    {
        let _entries = self.entries.len();
        let _nodes = self.tree.len();
        match self.entries.get(path) {
            Some(entry) => changed_node(entry),
            None => kept_node(self.tree.node(path)),
        }
    }

    /// Sets what is to stand at a path.
    pub(crate) fn put(&mut self, path: Path, entry: HeldEntry) -> Mem<()>
        ensures content { OnOk result (self.new.content ≡ over self.old.content path entry) }
        ensures counted { OnOk result (IsCounted self.old → IsCounted self.new) }
        ensures tree { self.new.tree ≡ self.old.tree }
        ensures ordered { OnOk result (IsStrictlySortedBy by_path (keys_of self.new.content)) }
    {
        let count = recount(self.count, self.node(&path).is_some(), entry.is_node())?;
        self.insert(path, entry)?;
        self.count = count;
        Ok(())
    }

    /// Changes the node at a path.
    pub(crate) fn change(&mut self, alloc: Global, path: &Path, edit: Edit) -> Mem<()>
        requires { is_some (node_at self.old.content path.now) ≡ true }
        ensures content { OnOk result (self.new.content ≡ change_at self.old.content path.now (edited_node edit)) }
        ensures counted { OnOk result (IsCounted self.old → IsCounted self.new) }
        ensures tree { self.new.tree ≡ self.old.tree }
        ensures ordered { OnOk result (IsStrictlySortedBy by_path (keys_of self.new.content)) }
    {
        let entry = self.take_with_edit(alloc, path, edit)?;
        self.insert(path.duplicate(alloc)?, entry)
    }

    /// Gives the node at a path other kids.
    pub(crate) fn put_kids(&mut self, alloc: Global, path: &Path, kids: TextList) -> Mem<()>
        requires { is_some (node_at self.old.content path.now) ≡ true }
        ensures content { OnOk result (self.new.content ≡ change_at self.old.content path.now (with_kids kids)) }
        ensures counted { OnOk result (IsCounted self.old → IsCounted self.new) }
        ensures tree { self.new.tree ≡ self.old.tree }
        ensures ordered { OnOk result (IsStrictlySortedBy by_path (keys_of self.new.content)) }
    {
        let entry = self.take_with_kids(alloc, path, kids)?;
        self.insert(path.duplicate(alloc)?, entry)
    }

    // Takes the node at a path out, and changes it. Until it is put back nothing is said of that path.
    fn take_with_edit(&mut self, alloc: Global, path: &Path, edit: Edit) -> Mem<HeldEntry>
        ensures value { IfOk result (λ r. Some r ≡ option_map (λ n. patch_node.Node (edited_node edit n)) (node_at self.old.content path.now)) }
        ensures others { (q : Segments) → same_path path.now q ≡ false → node_at self.new.content q ≡ node_at self.old.content q }
        ensures count { self.new.count ≡ self.old.count }
        ensures tree { self.new.tree ≡ self.old.tree }
        ensures ordered { IsStrictlySortedBy by_path (keys_of self.old.content) }
    {
        let entry = self.take_entry(path);
        entry_with_edit(alloc, self.tree.seeds(), entry, self.tree.node(path), edit)
    }

    // Takes the node at a path out, and gives it other kids. Until it is put back nothing is said of that path.
    fn take_with_kids(&mut self, alloc: Global, path: &Path, kids: TextList) -> Mem<HeldEntry>
        ensures value { IfOk result (λ r. Some r ≡ option_map (λ n. patch_node.Node (with_kids kids n)) (node_at self.old.content path.now)) }
        ensures others { (q : Segments) → same_path path.now q ≡ false → node_at self.new.content q ≡ node_at self.old.content q }
        ensures count { self.new.count ≡ self.old.count }
        ensures tree { self.new.tree ≡ self.old.tree }
        ensures ordered { IsStrictlySortedBy by_path (keys_of self.old.content) }
    {
        let entry = self.take_entry(path);
        entry_with_kids(alloc, self.tree.seeds(), entry, self.tree.node(path), kids)
    }

    // Takes what stands at a path out.
    fn take_entry(&mut self, path: &Path) -> Option<HeldEntry>
        ensures value { left_by result (node_at self.old.tree path.now) ≡ node_at self.old.content path.now }
        ensures others { (q : Segments) → same_path path.now q ≡ false → node_at self.new.content q ≡ node_at self.old.content q }
        ensures count { self.new.count ≡ self.old.count }
        ensures tree { self.new.tree ≡ self.old.tree }
        ensures ordered { IsStrictlySortedBy by_path (keys_of self.old.content) }
    {
        let _entries = self.entries.len();
        let _nodes = self.tree.len();
        self.entries.swap_remove(path)
    }

    // Sets what is to stand at a path, and leaves the count.
    fn insert(&mut self, path: Path, entry: HeldEntry) -> Mem<()>
        ensures content { OnOk result (self.new.content ≡ over self.old.content path entry) }
        ensures count { self.new.count ≡ self.old.count }
        ensures tree { self.new.tree ≡ self.old.tree }
        ensures before { IsStrictlySortedBy by_path (keys_of self.old.content) }
        ensures ordered { OnOk result (IsStrictlySortedBy by_path (keys_of self.new.content)) }
    {
        let _entries = self.entries.len();
        let _nodes = self.tree.len();
        self.entries.insert(path, entry)?;
        Ok(())
    }
}

// The node that an entry leaves, or else a copy of the tree's.
fn or_copy(
    alloc: Global,
    seeds: RandomState,
    entry: Option<HeldEntry>,
    node: Option<&Node>,
) -> Mem<HeldNode>
    ensures { IfOk result (λ n. Some n ≡ left_by entry (option_copied node.entry)) }
{
    match entry {
        Some(entry) => entry.into_held().ok_or(NoMemory),
        None => match node {
            Some(node) => Ok(HeldNode::of(alloc, seeds, node.duplicate(alloc)?)),
            // Only a node that is there is changed, so this is a lack of memory.
            None => Err(NoMemory),
        },
    }
}

// The properties of the node that an entry leaves, or else copies of those of the tree's.
fn or_copied_props(alloc: Global, entry: Option<HeldEntry>, node: Option<&Node>) -> Mem<PropList>
    ensures { IfOk result (λ props. Some props ≡ option_map (λ n. n.props) (left_by entry (option_copied node.entry))) }
{
    match entry {
        Some(entry) => entry.into_props().ok_or(NoMemory),
        None => match node {
            Some(node) => node.props.duplicate(alloc),
            // Only a node that is there is changed, so this is a lack of memory.
            None => Err(NoMemory),
        },
    }
}

// An entry with the node that another leaves, or else with the tree's, after a change.
fn entry_with_edit(
    alloc: Global,
    seeds: RandomState,
    entry: Option<HeldEntry>,
    node: Option<&Node>,
    edit: Edit,
) -> Mem<HeldEntry>
    ensures { IfOk result (λ r. Some r ≡ option_map (λ n. patch_node.Node (edited_node edit n)) (left_by entry (option_copied node.entry))) }
{
    let node = or_copy(alloc, seeds, entry, node)?;
    entry_of_edited(alloc, node, edit)
}

// An entry with a node after a change.
fn entry_of_edited(alloc: Global, node: HeldNode, edit: Edit) -> Mem<HeldEntry>
    ensures { IfOk result (λ r. r ≡ patch_node.Node (edited_node edit node)) }
{
    let mut node = node;
    node.edit(alloc, edit)?;
    Ok(HeldEntry::of_held(node))
}

// An entry with the node that another leaves, or else with the tree's, with other kids. The kids that it had are not copied.
fn entry_with_kids(
    alloc: Global,
    seeds: RandomState,
    entry: Option<HeldEntry>,
    node: Option<&Node>,
    kids: TextList,
) -> Mem<HeldEntry>
    ensures { IfOk result (λ r. Some r ≡ option_map (λ n. patch_node.Node (with_kids kids n)) (left_by entry (option_copied node.entry))) }
{
    let props = or_copied_props(alloc, entry, node)?;
    Ok(HeldEntry::of(alloc, seeds, Node { props, kids }))
}

// The node that a draft holds.
fn changed_node(entry: &HeldEntry) -> Option<DraftNode<'_>>
    ensures { result ≡ left_by (Some entry.now) None }
{
    match entry.held() {
        Some(node) => Some(DraftNode::changed(node)),
        None => None,
    }
}

// The node that a draft leaves as it is.
fn kept_node(node: Option<&Node>) -> Option<DraftNode<'_>>
    ensures { result ≡ option_copied node.entry }
{
    match node {
        Some(node) => Some(DraftNode::kept(node)),
        None => None,
    }
}

// The count where something was or is at a path.
fn recount(count: usize, was: bool, is: bool) -> Mem<usize>
    ensures { IfOk result (λ n. n + one_if was ≡ count + one_if is) }
{
    let more = match (was, is) {
        (true, false) => count.checked_sub(1),
        (false, true) => count.checked_add(1),
        _ => Some(count),
    };
    match more {
        Some(n) => Ok(n),
        None => Err(NoMemory),
    }
}
