// The change of an index by a patch of the tree.
ghost use Rattle.std.specs.Prelude.{◌≡◌, ◌==◌, ◌≤◌, ◌&&◌, ◌||◌, not, IfOk, OnOk, length};
ghost use Rattle.std.specs.List.Sorted.{IsStrictlySortedBy};
ghost use Rattle.sp_base.specs.Paths.{by_path};
ghost use Rattle.resource_tree.specs.Content.{node_at};
ghost use Rattle.script_rank.specs.Index.{HasScriptRoom, IsScriptChangeOf, IsScriptIndexOf, has_path, TakesScriptChange};
ghost use Rattle.script_rank.specs.Noting.{NotesPatchedRow};
ghost use Rattle.sp_base.specs.Texts.{Segments};

use crate::ScriptIndex;
use crate::texts::{has_text_there, is_text_path, leaves_text, push_script};
use resource_tree::{Patch, PatchNode, Tree};
use sp_base::{Mem, Path};
use std::alloc::Global;
use std::marker::Model;

/// The most paths that are put into an index, or taken out of it, one by one.
const FEW: usize = 16;

/// What a patch changes in an index: the paths that become those of scripts, and those of the scripts that are gone.
#[derive(Drop)]
pub struct ScriptChange {
    added: Vec<Path>,
    gone: Vec<Path>,
}

impl Model for ScriptChange {
    ghost use Rattle.script_rank.specs.Index.{ScriptPathsChange};

    ghost Value = { ScriptPathsChange };

    ghost view = { λ c. record { added = c.added.items; gone = c.gone.items } };
}

impl ScriptChange {
    /// Whether a patch changes no script's path.
    pub fn is_none(&self) -> bool
        ensures { result ≡ (length self.now.added == 0 && length self.now.gone == 0) }
    {
        self.added.is_empty() && self.gone.is_empty()
    }
}

impl ScriptIndex {
    /// What a patch of a tree changes in the tree's index, for which room is made here: all memory that the change takes. It looks at
    /// the entries of the patch alone, and of these at the nodes that may hold the text of a script.
    pub fn change_of(&mut self, alloc: Global, tree: &Tree, patch: &Patch) -> Mem<ScriptChange>
        ensures change { IfOk result (IsScriptChangeOf tree.now patch.now) }
        ensures room { IfOk result (HasScriptRoom self.new) }
        ensures unchanged { self.new.scripts ≡ self.old.scripts }
    {
        let change = script_change(alloc, tree, patch)?;
        self.make_room(change.added.len())?;
        Ok(change)
    }

    /// Changes the index, with no memory: the index of a tree becomes that of each tree that has the patch over it.
    pub fn take(&mut self, change: ScriptChange)
        requires { HasScriptRoom self.old change }
        ensures { TakesScriptChange change self.old self.new }
    {
        let ScriptChange { added, gone } = change;
        self.forget_all(gone);
        self.put_all(added);
    }

    // Each path of a few moves those that stand after it. Of many, each script is looked up once.
    fn forget_all(&mut self, gone: Vec<Path>)
        ensures scripts { (q : Segments) → has_path self.new.scripts q ≡ (has_path self.old.scripts q && not (has_path gone.items q)) }
        ensures room { self.old.room ≤ self.new.room }
    {
        if gone.len() <= FEW {
            self.forget_each(&gone);
        } else {
            self.forget_at_once(gone);
        }
    }

    fn forget_each(&mut self, gone: &[Path])
        ensures scripts { (q : Segments) → has_path self.new.scripts q ≡ (has_path self.old.scripts q && not (has_path gone.now q)) }
        ensures room { self.old.room ≤ self.new.room }
    {
        for path in gone {
            self.forget(path);
        }
    }

    // Each path of a few moves those that stand after it. Many are put after the others, and all are sorted once.
    fn put_all(&mut self, added: Vec<Path>)
        requires { length added.items ≤ self.old.room }
        ensures scripts { (q : Segments) → has_path self.new.scripts q ≡ (has_path self.old.scripts q || has_path added.items q) }
        ensures order { IsStrictlySortedBy by_path self.new.scripts }
    {
        if added.len() <= FEW {
            self.put_each(added);
        } else {
            self.put_at_once(added);
        }
    }

    fn put_each(&mut self, added: Vec<Path>)
        requires { length added.items ≤ self.old.room }
        ensures scripts { (q : Segments) → has_path self.new.scripts q ≡ (has_path self.old.scripts q || has_path added.items q) }
        ensures order { IsStrictlySortedBy by_path self.new.scripts }
    {
        let mut left = added;
        while let Some(path) = left.pop() {
            self.put_in_room(path);
        }
        // What holds of each index says that it is in order.
        let _ = self.scripts.len();
    }
}

fn script_change(alloc: Global, tree: &Tree, patch: &Patch) -> Mem<ScriptChange>
    ensures { IfOk result (IsScriptChangeOf tree.now patch.now) }
{
    // What holds of each tree leaves no text of a script without its node.
    let _ = tree.len();
    let mut change = ScriptChange {
        added: Vec::new(alloc),
        gone: Vec::new(alloc),
    };
    for position in 0..patch.len() {
        let Some((path, row)) = patch.at(position) else {
            continue;
        };
        note_entry(&mut change, alloc, tree, path, row)?;
    }
    Ok(change)
}

// Notes the script that an entry of a patch makes or takes away, by its text.
fn note_entry(
    change: &mut ScriptChange,
    alloc: Global,
    tree: &Tree,
    path: &Path,
    row: &PatchNode,
) -> Mem<()>
    ensures { OnOk result (NotesPatchedRow path.now (node_at tree.now path.now) row.now change.old change.new) }
{
    if !is_text_path(path) {
        return Ok(());
    }
    let before = has_text_there(tree.node(path));
    let after = leaves_text(row);
    push_script(&mut change.added, alloc, path, becomes(before, after))?;
    push_script(&mut change.gone, alloc, path, becomes(after, before))
}

// Whether something holds after that didn't before.
fn becomes(before: bool, after: bool) -> bool
    ensures { result ≡ (after && not before) }
{
    after && !before
}
