// The kids of a node that have an alias, in two lists of kids.
ghost use Rattle.std.specs.Prelude.{◌≡◌, IfOk, IsTrue};
ghost use Rattle.std.specs.List.{list_any};
ghost use Rattle.url_maps.specs.Siblings.{AreSameFirst, AreSameLast, is_aliased_kid, aliased_kids};

use crate::parents::is_named;
use resource_tree::Tree;
use sp_base::{Mem, Path, TextBuf};
use std::alloc::Global;

// Whether the kids with an alias stand alike in two lists of the kids of a node. What the lists have in common at their beginning and
// at their end isn't looked at, so a kid more or less costs one look-up, however many others there are.
pub(crate) fn named_stay(
    alloc: Global,
    tree: &Tree,
    path: &Path,
    names: &[TextBuf],
    others: &[TextBuf],
) -> Mem<bool>
    ensures { IfOk result (λ stay. IsTrue stay → aliased_kids tree.now path.now names.now ≡ aliased_kids tree.now path.now others.now) }
{
    let common = same_first(names, others);
    let rest = &names[common..];
    let other_rest = &others[common..];
    Ok(stay_after(alloc, tree, path, rest, other_rest)?)
}

// The same of lists whose common beginning is cut off.
fn stay_after(
    alloc: Global,
    tree: &Tree,
    path: &Path,
    names: &[TextBuf],
    others: &[TextBuf],
) -> Mem<bool>
    ensures { IfOk result (λ stay. IsTrue stay → aliased_kids tree.now path.now names.now ≡ aliased_kids tree.now path.now others.now) }
{
    let back = same_last(names, others);
    let first = &names[..names.len() - back];
    if has_named(alloc, tree, path, first)? {
        return Ok(false);
    }
    let other_first = &others[..others.len() - back];
    let has_other = has_named(alloc, tree, path, other_first)?;
    Ok(!has_other)
}

// How many texts two lists have in common at their beginning.
fn same_first(texts: &[TextBuf], others: &[TextBuf]) -> usize
    ensures { AreSameFirst result texts.now others.now }
{
    let most = texts.len().min(others.len());
    for at in 0..most {
        let text = &texts[at];
        let other = &others[at];
        if !is_same(text, other) {
            return at;
        }
    }
    most
}

// How many texts two lists have in common at their end.
fn same_last(texts: &[TextBuf], others: &[TextBuf]) -> usize
    ensures { AreSameLast result texts.now others.now }
{
    let most = texts.len().min(others.len());
    for passed in 0..most {
        let text = &texts[texts.len() - 1 - passed];
        let other = &others[others.len() - 1 - passed];
        if !is_same(text, other) {
            return passed;
        }
    }
    most
}

fn is_same(text: &TextBuf, other: &TextBuf) -> bool
    ensures { IsTrue result → text.now ≡ other.now }
{
    text == other
}

fn has_named(alloc: Global, tree: &Tree, path: &Path, names: &[TextBuf]) -> Mem<bool>
    ensures { IfOk result (λ has. has ≡ list_any (is_aliased_kid tree.now path.now) names.now) }
{
    for name in names {
        if is_named_kid(alloc, tree, path, name.text())? {
            return Ok(true);
        }
    }
    Ok(false)
}

// Whether a node's kid of a name has an alias.
fn is_named_kid(alloc: Global, tree: &Tree, path: &Path, name: &str) -> Mem<bool>
    ensures { IfOk result (λ is. is ≡ is_aliased_kid tree.now path.now name.now) }
{
    match path.child_or_none(alloc, name)? {
        Some(kid) => Ok(is_named(tree.node(&kid))),
        None => Ok(false),
    }
}
