// The kids of a merged resource.
ghost use Rattle.std.specs.Prelude.{◌≡◌, ◌∷◌, ◌++◌, [], not, IfOk, OnOk, filter, is_some, if◌then◌else◌};
ghost use Rattle.std.specs.List.{list_any};
ghost use Rattle.resource_tree.specs.Content.{kid, node_at};
ghost use Rattle.overlay_merge.specs.Kids.{all_kids, has_text, is_merged_there, layers_kids, kids_there};
ghost use Rattle.overlay_merge.specs.Merged.{names_like};
ghost use Rattle.overlay_merge.specs.Walk.{AreNodesOf};

use crate::merged_resources::merged_from;
use crate::order::{moves_of, ordered};
use resource_tree::{Res, Tree};
use sp_base::{Mem, Path, TextBuf, TextList};
use std::alloc::Global;

/// Whether a node is at a kid's path.
pub(crate) fn has_node(alloc: Global, tree: &Tree, path: &Path, name: &str) -> Mem<bool>
    ensures { IfOk result (λ b. b ≡ is_some (node_at tree.now (kid path.now name.now))) }
{
    // `len` says that each node's path is one.
    let _ = tree.len();
    match path.child_or_none(alloc, name)? {
        Some(path) => Ok(tree.node(&path).is_some()),
        None => Ok(false),
    }
}

// Whether one of these nodes has a kid of this name: it is looked up, since there may be many kids.
fn is_kid_of_some(alloc: Global, tree: &Tree, layers: &[Res<'_>], name: &str) -> Mem<bool>
    requires { AreNodesOf tree.now layers.now }
    ensures { IfOk result (λ b. b ≡ list_any (λ layer. has_text layer.kids name.now) layers.now) }
{
    // `len` says that a node's kids are the paths one segment longer.
    let _ = tree.len();
    for layer in layers {
        if has_node(alloc, tree, layer.path(), name)? {
            return Ok(true);
        }
    }
    Ok(false)
}

// Adds a name to others, if it isn't known yet.
fn push_unless(alloc: Global, known: bool, name: &str, names: &mut Vec<TextBuf>) -> Mem<()>
    ensures { OnOk result (names.new.items ≡ names.old.items ++ (if known then [] else name.now ∷ [])) }
{
    if known {
        return Ok(());
    }
    names.push(TextBuf::of(alloc, name)?)?;
    Ok(())
}

// Adds the kids of a layer that no lower one has.
fn add_kids(
    alloc: Global,
    tree: &Tree,
    lower: &[Res<'_>],
    layer: &Res<'_>,
    names: &mut Vec<TextBuf>,
) -> Mem<()>
    requires { AreNodesOf tree.now lower.now }
    ensures { OnOk result (names.new.items ≡ names.old.items ++ filter (λ name. not (list_any (λ l. has_text l.kids name) lower.now)) layer.now.kids) }
{
    for name in layer.kids() {
        let known = is_kid_of_some(alloc, tree, lower, name.text())?;
        push_unless(alloc, known, name.text(), names)?;
    }
    Ok(())
}

fn all_kids(alloc: Global, tree: &Tree, layers: &[Res<'_>]) -> Mem<Vec<TextBuf>>
    requires { AreNodesOf tree.now layers.now }
    ensures { IfOk result (λ names. names.items ≡ all_kids layers.now) }
{
    let mut names = Vec::new(alloc);
    for k in 0..layers.len() {
        add_kids(alloc, tree, &layers[..k], &layers[k], &mut names)?;
    }
    Ok(names)
}

// Whether a merged resource is at a kid's path.
fn is_there(alloc: Global, tree: &Tree, path: &Path, name: &str) -> Mem<bool>
    ensures { IfOk result (λ b. b ≡ is_merged_there tree.now (kid path.now name.now)) }
{
    match path.child_or_none(alloc, name)? {
        Some(path) => Ok(!merged_from(alloc, tree, &path)?.is_empty()),
        None => Ok(false),
    }
}

#[tactic(auto, unfolding(crate::specs::Kids::kids_there))]
fn kids_there(alloc: Global, tree: &Tree, path: &Path, names: Vec<TextBuf>) -> Mem<Vec<TextBuf>>
    ensures { IfOk result (λ kids. kids.items ≡ kids_there tree.now path.now names.items) }
{
    let mut kids = Vec::new(alloc);
    for name in names {
        if is_there(alloc, tree, path, name.text())? {
            kids.push(name)?;
        }
    }
    Ok(kids)
}

/// The kids of layers at a path.
#[tactic(auto, unfolding(crate::specs::Kids::layers_kids))]
pub(crate) fn kids_of(alloc: Global, tree: &Tree, path: &Path, layers: &[Res<'_>]) -> Mem<TextList>
    requires { AreNodesOf tree.now layers.now }
    ensures { IfOk result (λ kids. kids ≡ layers_kids tree.now path.now layers.now) }
{
    // `len` says that no kid of a node is listed twice.
    let _ = tree.len();
    let names = all_kids(alloc, tree, layers)?;
    let kids = kids_there(alloc, tree, path, names)?;
    let moves = moves_of(alloc, tree, layers)?;
    if moves.is_empty() {
        return Ok(TextList::from(kids));
    }
    Ok(TextList::from(ordered(alloc, kids.as_slice(), &moves)?))
}

// Whether layers at a path have a kid of this name.
fn has_kid(alloc: Global, tree: &Tree, path: &Path, layers: &[Res<'_>], name: &str) -> Mem<bool>
    requires { AreNodesOf tree.now layers.now }
    ensures { IfOk result (λ b. b ≡ has_text (layers_kids tree.now path.now layers.now) name.now) }
{
    let known = is_kid_of_some(alloc, tree, layers, name)?;
    if !known {
        return Ok(false);
    }
    is_there(alloc, tree, path, name)
}

/// Of the kids of layers at a path the one of a name, if there is one: no other is looked up.
pub(crate) fn kids_like(
    alloc: Global,
    tree: &Tree,
    path: &Path,
    layers: &[Res<'_>],
    name: &str,
) -> Mem<TextList>
    requires { AreNodesOf tree.now layers.now }
    ensures { IfOk result (λ kids. kids ≡ names_like name.now (layers_kids tree.now path.now layers.now)) }
{
    let mut kids = TextList::new(alloc);
    let listed = has_kid(alloc, tree, path, layers, name)?;
    if !listed {
        return Ok(kids);
    }
    kids.push(TextBuf::of(alloc, name)?)?;
    Ok(kids)
}
