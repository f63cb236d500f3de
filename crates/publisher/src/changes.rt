// The change of a tree, and of what is kept beside it.
ghost use Rattle.std.specs.Prelude.{◌≡◌, None, Some, is_some, option_copied, true, OnOk, OnErr};
ghost use Rattle.resource_tree.specs.Content.{Content, IsGood};
ghost use Rattle.resource_tree.specs.Patches.{left_by, patching};
ghost use Rattle.script_rank.specs.Index.{HasPatchOver, IsScriptChangeOf};
ghost use Rattle.publisher.specs.FirstScripts.{AreFirst, ChangesNoScript, KeepsSupers, names_super, super_in};
ghost use Rattle.publisher.specs.Kept.{AreAmong, AreIndexesOf, AreReadings, AreUnpatched, IsTextUnread};

use crate::first_scripts::FirstScripts;
use crate::kept_index::Indexes;
use crate::templates::Templates;
use resource_tree::{Node, Patch, PatchNode, Tree};
use script_rank::ScriptChange;
use sp_base::{Mem, Path};
use std::alloc::Global;

/// Puts a patch over a tree. All memory is taken before the tree changes.
pub(crate) fn put_over(
    alloc: Global,
    tree: &mut Tree,
    templates: &mut Templates,
    firsts: &mut FirstScripts,
    indexes: &mut Indexes,
    patch: Patch,
) -> Mem<()>
    requires good { IsGood (patching tree.old patch) }
    requires indexes { AreIndexesOf tree.old indexes.old }
    requires kept { AreReadings tree.old templates.old }
    requires firsts { AreFirst tree.old firsts.old }
    ensures ok { OnOk result (tree.new ≡ patching tree.old patch) }
    ensures unchanged { OnErr result (tree.new ≡ tree.old) }
    ensures indexes { AreIndexesOf tree.new indexes.new }
    ensures kept { AreReadings tree.new templates.new }
    ensures firsts { AreFirst tree.new firsts.new }
{
    let mappings = indexes.mappings.change_of(alloc, tree, &patch)?;
    let scripts = indexes.scripts.change_of(alloc, tree, &patch)?;
    forget_patched(alloc, templates, &patch)?;
    forget_firsts(firsts, tree, &patch, &scripts);
    tree.apply(patch)?;
    indexes.mappings.take(mappings);
    indexes.scripts.take(scripts);
    Ok(())
}

// Forgets the readings of the scripts whose text a patch may change.
fn forget_patched(alloc: Global, templates: &mut Templates, patch: &Patch) -> Mem<()>
    ensures fewer { AreAmong templates.old templates.new }
    ensures unpatched { OnOk result (AreUnpatched patch.now templates.new) }
{
    for position in 0..patch.len() {
        let Some((path, _row)) = patch.at(position) else {
            continue;
        };
        forget_text(alloc, templates, path)?;
    }
    Ok(())
}

// Forgets the reading of the script whose text stands at a path.
fn forget_text(alloc: Global, templates: &mut Templates, path: &Path) -> Mem<()>
    ensures fewer { AreAmong templates.old templates.new }
    ensures forgotten { OnOk result (IsTextUnread path.now templates.new) }
{
    if path.name() != "jcr:content" {
        return Ok(());
    }
    let script = path.parent(alloc)?;
    templates.forget(&script);
    Ok(())
}

// Forgets the first scripts, unless a patch changes none.
fn forget_firsts(firsts: &mut FirstScripts, tree: &Tree, patch: &Patch, scripts: &ScriptChange)
    requires change { IsScriptChangeOf tree.now patch.now scripts.now }
    requires firsts { AreFirst tree.now firsts.old }
    ensures before { AreFirst tree.now firsts.new }
    ensures after { (after : Content) → IsGood after → HasPatchOver tree.now patch.now after → AreFirst after firsts.new }
{
    if keeps_firsts(tree, patch, scripts) {
        return;
    }
    firsts.forget_all();
}

// Whether a patch changes no first script: it makes and takes away no script, and none of its nodes names a super type.
fn keeps_firsts(tree: &Tree, patch: &Patch, scripts: &ScriptChange) -> bool
    ensures scripts { result ≡ true → ChangesNoScript scripts.now }
    ensures supers { result ≡ true → KeepsSupers tree.now patch.now }
{
    scripts.is_none() && keeps_supers(tree, patch)
}

// Whether no node at a path of a patch names a super type, before the patch or after it.
fn keeps_supers(tree: &Tree, patch: &Patch) -> bool
    ensures { result ≡ true → KeepsSupers tree.now patch.now }
{
    for position in 0..patch.len() {
        let Some((path, row)) = patch.at(position) else {
            continue;
        };
        if names_super_at(tree, path, row) {
            return false;
        }
    }
    true
}

fn names_super_at(tree: &Tree, path: &Path, row: &PatchNode) -> bool
    ensures { result ≡ names_super tree.now (path.now, row.now) }
{
    has_super(tree.node(path)) || has_super(left_by(row))
}

// Whether there is a node that names a super type.
#[tactic(auto, unfolding(type_chain::specs::Chain::own_super))]
fn has_super(node: Option<&Node>) -> bool
    ensures { result ≡ is_some (super_in (option_copied node.entry)) }
{
    match node {
        Some(node) => node.props.text("sling:resourceSuperType").is_some(),
        None => false,
    }
}

// The node that an entry leaves.
fn left_by(row: &PatchNode) -> Option<&Node>
    ensures { option_copied result ≡ left_by (Some row.now) None }
{
    match row {
        PatchNode::Node(node) => Some(node),
        PatchNode::Gone => None,
    }
}
