// The first of the siblings with an alias, put into rows parent by parent.
ghost use Rattle.std.specs.Prelude.{◌≡◌, IfOk, OnOk, option_copied};
ghost use Rattle.resource_tree.specs.Content.{kid, node_at};
ghost use Rattle.resource_tree.specs.Patches.{patching_at};
ghost use Rattle.url_maps.specs.Claims.{AreClaims, NamesFirst, claims_alias};
ghost use Rattle.url_maps.specs.Changes.{LeadsOn};
ghost use Rattle.url_maps.specs.Siblings.{PutsFamilies, PutsKids, names_first, path_if, PutsKid};

use crate::claimed::alias_texts;
use crate::claims::Claims;
use crate::claims_change::ClaimsChange;
use crate::parents::{changed_parents, each_once, left_by};
use resource_tree::{Node, Patch, Tree};
use sp_base::{Mem, Path, a_path_and_its_text};
use std::alloc::Global;

// Whether the rows of texts name who claims them.
#[derive(Clone, Copy)]
enum Naming {
    /// The first kid that claims a text is named.
    First,
    /// No kid is.
    Nobody,
}

// A kid by its parent and its name.
#[derive(Clone, Copy)]
struct Sibling<'a> {
    parent: &'a Path,
    name: &'a str,
}

// The first siblings of a tree, made of all who claim a text as their alias. It walks over the kids of the nodes of which several kids
// claim one text: of the others the one that claims a text is the first.
pub(crate) fn first_siblings(alloc: Global, tree: &Tree, claims: Claims) -> Mem<Claims>
    requires { AreClaims (claims_alias tree.now) claims.rows }
    ensures { IfOk result (λ first. NamesFirst (node_at tree.now) first.rows) }
{
    a_path_and_its_text();
    // `len` says that the tree is one.
    let _ = tree.len();
    let mut first = claims;
    let shared = first.shared_parents(alloc)?;
    let parents = each_once(alloc, tree, shared.as_slice())?;
    let unchanged = Patch::new(alloc, tree.seeds());
    let mut change = ClaimsChange::new(alloc, tree.seeds());
    put_families(
        &mut change,
        alloc,
        tree,
        &unchanged,
        parents.as_slice(),
        Naming::First,
    )?;
    first.make_room(change.len())?;
    first.change(change);
    Ok(first)
}

// What a patch changes of the first siblings. It walks over the kids of the nodes whose kids it changes, or the aliases of whose kids.
pub(crate) fn siblings_change(alloc: Global, tree: &Tree, patch: &Patch) -> Mem<ClaimsChange>
    ensures { IfOk result (LeadsOn (node_at tree.now) (patching_at tree.now patch.now)) }
{
    let changed = changed_parents(alloc, tree, patch)?;
    let parents = changed.as_slice();
    let mut change = ClaimsChange::new(alloc, tree.seeds());
    let unchanged = Patch::new(alloc, tree.seeds());
    put_families(
        &mut change,
        alloc,
        tree,
        &unchanged,
        parents,
        Naming::Nobody,
    )?;
    put_families(&mut change, alloc, tree, patch, parents, Naming::First)?;
    Ok(change)
}

// Gives the texts that the kids of some nodes claim a row, in a tree with a patch over it: with the first kid, or without.
fn put_families(
    change: &mut ClaimsChange,
    alloc: Global,
    tree: &Tree,
    patch: &Patch,
    parents: &[Path],
    naming: Naming,
) -> Mem<()>
    ensures { OnOk result (PutsFamilies (patching_at tree.now patch.now) (names_first naming) parents.now change.old change.new) }
{
    a_path_and_its_text();
    for parent in parents {
        put_kids(change, alloc, tree, patch, parent, naming)?;
    }
    Ok(())
}

fn put_kids(
    change: &mut ClaimsChange,
    alloc: Global,
    tree: &Tree,
    patch: &Patch,
    parent: &Path,
    naming: Naming,
) -> Mem<()>
    ensures { OnOk result (PutsKids (patching_at tree.now patch.now) (names_first naming) parent.now change.old change.new) }
{
    let Some(node) = node_after(tree, patch, parent) else {
        return Ok(());
    };
    let kids = node.kids.as_slice();
    for name in kids {
        let sibling = Sibling {
            parent,
            name: name.text(),
        };
        put_kid(change, alloc, tree, patch, &sibling, naming)?;
    }
    Ok(())
}

fn put_kid(
    change: &mut ClaimsChange,
    alloc: Global,
    tree: &Tree,
    patch: &Patch,
    sibling: &Sibling,
    naming: Naming,
) -> Mem<()>
    ensures { OnOk result (PutsKid tree.now patch.now (kid sibling.now.parent.now sibling.now.name.now) (names_first naming) change.old change.new) }
{
    let Some(path) = sibling.parent.child_or_none(alloc, sibling.name)? else {
        return Ok(());
    };
    let texts = alias_texts(alloc, &path, node_after(tree, patch, &path))?;
    change.put_all(alloc, texts.as_slice(), path_if(naming, &path))?;
    Ok(())
}

fn path_if(naming: Naming, path: &Path) -> Option<&Path>
    ensures { option_copied result ≡ path_if (names_first naming) path.now }
{
    match naming {
        Naming::First => Some(path),
        Naming::Nobody => None,
    }
}

// The node at a path of a tree with a patch over it.
pub(crate) fn node_after<'a>(tree: &'a Tree, patch: &'a Patch, path: &Path) -> Option<&'a Node>
    ensures { option_copied result ≡ patching_at tree.now patch.now path.now }
{
    match patch.get(path) {
        Some(row) => left_by(row),
        None => tree.node(path),
    }
}
