// The nodes whose kids with an alias a patch changes, or the aliases of whose kids.
ghost use Rattle.std.specs.Prelude.{◌≡◌, ◌||◌, ◌&&◌, IfOk, OnOk, IsTrue, None, Some, not, option_copied};
ghost use Rattle.std.specs.List.{list_any};
ghost use Rattle.resource_tree.specs.Content.{same_path};
ghost use Rattle.resource_tree.specs.Patches.{left_by};
ghost use Rattle.url_maps.specs.Siblings.{IsSettled, IsWithin, KeepsOthers, alias_words, is_aliased, kids_if};
ghost use Rattle.sp_base.specs.Texts.{Segments};

use crate::claims_change::ClaimsChange;
use crate::named_kids::named_stay;
use resource_tree::{Node, Patch, PatchNode, Tree};
use sp_base::{Mem, Path, PathList, TextBuf, a_path_and_its_text, value_texts};
use std::alloc::Global;

// The nodes of whose kids with an alias a patch changes the list, and those of whose kids it changes an alias, each once.
pub(crate) fn changed_parents(alloc: Global, tree: &Tree, patch: &Patch) -> Mem<PathList>
    ensures { IfOk result (KeepsOthers tree.now patch.now) }
{
    let mut parents = PathList::new(alloc);
    for place in 0..patch.len() {
        let Some((path, row)) = patch.at(place) else {
            continue;
        };
        push_changed(&mut parents, alloc, tree, path, row)?;
    }
    Ok(each_once(alloc, tree, parents.as_slice())?)
}

// Adds the node of an entry, unless the entry leaves its kids with an alias, and its parent, unless it leaves its aliases.
fn push_changed(
    parents: &mut PathList,
    alloc: Global,
    tree: &Tree,
    path: &Path,
    row: &PatchNode,
) -> Mem<()>
    ensures settled { OnOk result (IsSettled tree.now path.now row.now parents.new) }
    ensures within { OnOk result (IsWithin parents.old parents.new) }
{
    let old = tree.node(path);
    let new = left_by(row);
    let kids_stay = named_stay(alloc, tree, path, kids_if(old), kids_if(new))?;
    push_unless(parents, kids_stay, path.duplicate(alloc)?)?;
    let aliases_stay = are_same(alias_words(old), alias_words(new));
    push_unless(parents, aliases_stay, path.parent(alloc)?)?;
    Ok(())
}

fn push_unless(paths: &mut PathList, known: bool, path: Path) -> Mem<()>
    ensures { OnOk result ((q : Segments) → list_any (same_path q) paths.new ≡ (list_any (same_path q) paths.old || (not known && same_path q path))) }
{
    if known {
        return Ok(());
    }
    paths.push(path)?;
    Ok(())
}

fn are_same(texts: &[TextBuf], others: &[TextBuf]) -> bool
    ensures { IsTrue result → texts.now ≡ others.now }
{
    texts == others
}

fn kids_if(node: Option<&Node>) -> &[TextBuf]
    ensures { result.now ≡ kids_if (option_copied node.entry) }
{
    match node {
        Some(node) => node.kids.as_slice(),
        None => &[],
    }
}

fn alias_words(node: Option<&Node>) -> &[TextBuf]
    ensures { result.now ≡ alias_words (option_copied node.entry) }
{
    match node {
        Some(node) => value_texts(node.props.get("sling:alias")),
        None => &[],
    }
}

// Whether a node has an alias.
pub(crate) fn is_named(node: Option<&Node>) -> bool
    ensures { result ≡ is_aliased (option_copied node.entry) }
{
    !alias_words(node).is_empty()
}

// The node that an entry leaves at its path.
pub(crate) fn left_by(row: &PatchNode) -> Option<&Node>
    ensures { option_copied result ≡ left_by (Some row.now) None }
{
    match row {
        PatchNode::Node(node) => Some(node),
        PatchNode::Gone => None,
    }
}

// The same paths, each once.
pub(crate) fn each_once(alloc: Global, tree: &Tree, paths: &[Path]) -> Mem<PathList>
    ensures { IfOk result (λ list. (q : Segments) → list_any (same_path q) list ≡ list_any (same_path q) paths.now) }
{
    a_path_and_its_text();
    let mut known = ClaimsChange::new(alloc, tree.seeds());
    let mut list = PathList::new(alloc);
    for path in paths {
        // `depth` says that the path is one.
        let _ = path.depth();
        let is_known = known.put_empty_row(alloc, path.as_text())?;
        push_unless(&mut list, is_known, path.duplicate(alloc)?)?;
    }
    Ok(list)
}
