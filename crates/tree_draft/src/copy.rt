// A node that is copied with all below it to another path.
ghost use Rattle.std.specs.Prelude.{◌≡◌, ◌≢◌, ◌≤◌, ◌+◌, ◌&&◌, None, Some, OnOk, IfOk, IfErr, is_some, length, true, false};
ghost use Rattle.std.specs.List.{list_any, IsDistinct};
ghost use Rattle.std.specs.List.Sorted.{IsStrictlySortedBy};
ghost use Rattle.std.specs.Map.{keys_of};
ghost use Rattle.std.specs.Ordering.{eq_by_cmp};
ghost use Rattle.sp_base.specs.Paths.{is_path, is_under};
ghost use Rattle.sp_base.specs.Texts.{Segments};
ghost use Rattle.resource_tree.specs.declared.patch.PatchNode.TheVariants as patch_node;
ghost use Rattle.resource_tree.specs.Content.{by_path, most_nodes, name_of, node_at, same_path, parent_of};
ghost use Rattle.resource_tree.specs.Changes.{change_at, with_kid};
ghost use Rattle.resource_tree.specs.Patches.{patching, entry_at};
ghost use Rattle.resource_tree.specs.Moves.{copy, copy_fault, is_too_deep, part, part_there, path_there, target_fault};
ghost use Rattle.tree_draft.specs.Drafts.{DraftFollows, IsCounted, IsSound};
ghost use Rattle.tree_draft.specs.Copies.{PutsCopy, some_are_too_deep};

use crate::Draft;
use crate::held::HeldEntry;
use crate::part::paths_under;
use indexmap::IndexMap;
use resource_tree::{MOST_NODES, TreeFault, name_taken, no_such, node_exists};
use sp_base::{Mem, Path};
use std::alloc::Global;
use std::hash::RandomState;

impl<'a> Draft<'a> {
    /// Copies a node and all below it to another path. The copy stands last among the kids of its
    /// parent, and each kid below it in the order that it has.
    pub fn copy_to(&mut self, alloc: Global, source: &Path, target: &Path) -> Result<(), TreeFault>
        requires { IsSound self.old }
        ensures allowed { OnOk result (copy_fault self.old.content source.now target.now ≡ None) }
        ensures ok { OnOk result (self.new.content ≡ copy self.old.content source.now target.now) }
        ensures err { IfErr result (λ e. e ≢ TreeFault.NoMemory → copy_fault self.old.content source.now target.now ≡ Some e) }
        ensures unchanged { IfErr result (λ e. e ≢ TreeFault.NoMemory → self.new ≡ self.old) }
        ensures follows { OnOk result (DraftFollows self.old self.new) }
    {
        let parent = target.parent(alloc)?;
        self.check_target(alloc, source, target, &parent)?;
        let part = part_that_fits(self, alloc, source, target)?;
        self.put_part(alloc, &parent, target, part)?;
        Ok(())
    }

    // Puts a part at a target, and names the target last among the kids of its parent.
    pub(crate) fn put_part(
        &mut self,
        alloc: Global,
        parent: &Path,
        target: &Path,
        part: IndexMap<Path, HeldEntry, RandomState>,
    ) -> Mem<()>
        requires { is_some (node_at self.old.content parent.now) ≡ true }
        ensures content { OnOk result (self.new.content ≡ patching (change_at self.old.content parent.now (with_kid (name_of target.now))) part.entries) }
        ensures counted { OnOk result (IsCounted self.old → IsCounted self.new) }
        ensures tree { OnOk result (self.new.tree ≡ self.old.tree) }
        ensures ordered { OnOk result (IsStrictlySortedBy by_path (keys_of self.new.content)) }
    {
        self.add_kid(alloc, parent, target)?;
        self.put_all(part)?;
        Ok(())
    }

    // Whether a path is free for a copy.
    pub(crate) fn check_target(
        &self,
        alloc: Global,
        source: &Path,
        target: &Path,
        parent: &Path,
    ) -> Result<(), TreeFault>
        requires { parent.now ≡ parent_of target.now }
        ensures ok { OnOk result (target_fault self.now.content source.now target.now ≡ None) }
        ensures err { IfErr result (λ e. e ≢ TreeFault.NoMemory → target_fault self.now.content source.now target.now ≡ Some e) }
    {
        if self.node(source).is_none() {
            return Err(no_such(alloc, source));
        }
        let Some(above) = self.node(parent) else {
            return Err(no_such(alloc, parent));
        };
        if target.depth() == 0 {
            return Err(TreeFault::RootFixed);
        }
        if target.is_under(source) || source.is_under(target) {
            return Err(TreeFault::IntoItself);
        }
        if self.node(target).is_some() {
            return Err(node_exists(alloc, target));
        }
        if above.props().get(target.name()).is_some() {
            return Err(name_taken(alloc, target));
        }
        Ok(())
    }

    // Sets what is to stand at the paths of some entries.
    pub(crate) fn put_all(&mut self, entries: IndexMap<Path, HeldEntry, RandomState>) -> Mem<()>
        requires { IsStrictlySortedBy by_path (keys_of self.old.content) }
        ensures content { OnOk result (self.new.content ≡ patching self.old.content entries.entries) }
        ensures counted { OnOk result (IsCounted self.old → IsCounted self.new) }
        ensures tree { OnOk result (self.new.tree ≡ self.old.tree) }
        ensures ordered { OnOk result (IsStrictlySortedBy by_path (keys_of self.new.content)) }
    {
        for (path, entry) in entries {
            self.put(path, entry)?;
        }
        Ok(())
    }
}

// The nodes at the source and under it, at the target, where there is room for them.
fn part_that_fits(
    draft: &Draft,
    alloc: Global,
    source: &Path,
    target: &Path,
) -> Result<IndexMap<Path, HeldEntry, RandomState>, TreeFault>
    requires sound { IsSound draft.now }
    requires free { target_fault draft.now.content source.now target.now ≡ None }
    ensures ok { IfOk result (λ part. (q : Segments) → entry_at part.entries q ≡ entry_at (part_there draft.now.content source.now target.now) q) }
    ensures once { IfOk result (λ part. IsDistinct (eq_by_cmp by_path) (keys_of part.entries)) }
    ensures shallow { OnOk result (is_too_deep draft.now.content source.now target.now ≡ false) }
    ensures small { OnOk result (length draft.now.content + length (part draft.now.content source.now) ≤ most_nodes) }
    ensures err { IfErr result (λ e. e ≢ TreeFault.NoMemory → copy_fault draft.now.content source.now target.now ≡ Some e) }
{
    let paths = paths_under(draft, alloc, source)?;
    let part = part_there(draft, alloc, source, target, &paths)?;
    if part.len() > MOST_NODES.saturating_sub(draft.len()) {
        return Err(TreeFault::FullTree);
    }
    Ok(part)
}

// The nodes at some paths, which are all those at the source and under it, at the target.
pub(crate) fn part_there(
    draft: &Draft,
    alloc: Global,
    source: &Path,
    target: &Path,
    paths: &[Path],
) -> Result<IndexMap<Path, HeldEntry, RandomState>, TreeFault>
    requires all { (q : Segments) → list_any (same_path q) paths.now ≡ (is_some (node_at draft.now.content q) && is_under q source.now) }
    ensures ok { IfOk result (λ part. (q : Segments) → entry_at part.entries q ≡ entry_at (part_there draft.now.content source.now target.now) q) }
    ensures once { IfOk result (λ part. IsDistinct (eq_by_cmp by_path) (keys_of part.entries)) }
    ensures fits { OnOk result (some_are_too_deep source.now target.now paths.now ≡ false) }
    ensures err { IfErr result (λ e. e ≢ TreeFault.NoMemory → (e ≡ TreeFault.TooDeep) × (some_are_too_deep source.now target.now paths.now ≡ true)) }
{
    let mut part = IndexMap::with_hasher(alloc, draft.tree.seeds());
    for path in paths {
        put_copy(&mut part, draft, alloc, source, target, path)?;
    }
    Ok(part)
}

// Adds the node that is to stand at a path, if there is one, at the target.
fn put_copy(
    part: &mut IndexMap<Path, HeldEntry, RandomState>,
    draft: &Draft,
    alloc: Global,
    source: &Path,
    target: &Path,
    path: &Path,
) -> Result<(), TreeFault>
    ensures ok { OnOk result (PutsCopy draft.now.content path.now (path_there source.now target.now path.now) part.old.entries part.new.entries) }
    ensures once { OnOk result (IsDistinct (eq_by_cmp by_path) (keys_of part.old.entries) → IsDistinct (eq_by_cmp by_path) (keys_of part.new.entries)) }
    ensures fits { OnOk result (is_path (path_there source.now target.now path.now) ≡ true) }
    ensures err { IfErr result (λ e. e ≢ TreeFault.NoMemory → (e ≡ TreeFault.TooDeep) × (is_path (path_there source.now target.now path.now) ≡ false)) }
{
    let Some(there) = target.join_rest_or_none(alloc, path, source.depth())? else {
        return Err(TreeFault::TooDeep);
    };
    let Some(node) = draft.node(path) else {
        return Ok(());
    };
    let node = node.duplicate(alloc)?;
    part.insert(there, HeldEntry::of(alloc, draft.tree.seeds(), node))?;
    Ok(())
}
