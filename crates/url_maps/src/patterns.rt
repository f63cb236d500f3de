// The nodes directly below `/etc/map/http` with a pattern.
ghost use Rattle.std.specs.Prelude.{◌≡◌, ◌≢◌, IfOk, None, OnOk, is_some, unwrap_or};
ghost use Rattle.resource_tree.specs.Content.{node_at};
ghost use Rattle.resource_tree.specs.Patches.{patching_at};
ghost use Rattle.url_maps.specs.Mappings.{mapping_of};
ghost use Rattle.url_maps.specs.Patterns.{mappings_path};
ghost use Rattle.url_maps.specs.PatternRows.{AddsPattern, ArePatterns, ArePatternsAfter, IsRowOrNone, is_of_family, touches};

use crate::siblings::node_after;
use regex_rules::{Pattern, PatternFault};
use resource_tree::{Node, Patch, Tree};
use sp_base::{Items, Mem, NoMemory, Path, PathFault, TextBuf, value_texts};
use std::alloc::Global;

/// The name of a node that leads somewhere, and the pattern that its text `sling:match` reads as.
#[derive(Drop)]
pub(crate) struct PatternNode {
    pub name: TextBuf,
    pub pattern: Pattern,
}

pub(crate) type PatternList = Items<PatternNode>;

// The path of the node directly below which host nodes and nodes with a pattern are.
pub(crate) fn mappings_path(alloc: Global) -> Mem<Path>
    ensures { IfOk result (λ p. p ≡ mappings_path) }
{
    match Path::read(alloc, "/etc/map/http") {
        Ok(path) => Ok(path),
        Err(PathFault::NoMemory) => Err(NoMemory),
        Err(_) => unreachable!(),
    }
}

// The nodes with a pattern of a tree with a patch over it, in the order of their parent's kids.
pub(crate) fn patterns_of(alloc: Global, tree: &Tree, patch: &Patch) -> Mem<PatternList>
    ensures { IfOk result (ArePatterns (patching_at tree.now patch.now)) }
{
    let mut patterns = PatternList::new(alloc);
    let parent = mappings_path(alloc)?;
    let Some(node) = node_after(tree, patch, &parent) else {
        return Ok(patterns);
    };
    let names = node.kids.as_slice();
    for name in names {
        push_pattern(&mut patterns, alloc, tree, patch, &parent, name.text())?;
    }
    Ok(patterns)
}

fn push_pattern(
    patterns: &mut PatternList,
    alloc: Global,
    tree: &Tree,
    patch: &Patch,
    parent: &Path,
    name: &str,
) -> Mem<()>
    requires { parent.now ≡ mappings_path }
    ensures { OnOk result (AddsPattern (patching_at tree.now patch.now) name.now patterns.old patterns.new) }
{
    let Some(path) = parent.child_or_none(alloc, name)? else {
        return Ok(());
    };
    let Some(node) = node_after(tree, patch, &path) else {
        return Ok(());
    };
    let Some(row) = pattern_of(alloc, name, node)? else {
        return Ok(());
    };
    patterns.push(row)?;
    Ok(())
}

// The pattern of a node that leads somewhere, where its text `sling:match` reads as one.
fn pattern_of(alloc: Global, name: &str, node: &Node) -> Mem<Option<PatternNode>>
    ensures { IfOk result (IsRowOrNone name.now node.now) }
{
    let Some(text) = node.props.text("sling:match") else {
        return Ok(None);
    };
    if !leads(node) {
        return Ok(None);
    }
    match Pattern::read(alloc, text.text()) {
        Ok(pattern) => Ok(Some(PatternNode {
            name: TextBuf::of(alloc, name)?,
            pattern,
        })),
        Err(fault) => none_read(fault),
    }
}

// A text with a fault is no pattern; want of memory is none of its faults.
fn none_read(fault: PatternFault) -> Mem<Option<PatternNode>>
    ensures { IfOk result (λ o. (o ≡ None) × (fault ≢ PatternFault.NoMemory)) }
{
    match fault {
        PatternFault::NoMemory => Err(NoMemory),
        PatternFault::BadPattern(_) | PatternFault::TooDeep(_) => Ok(None),
    }
}

// Whether the node of a mapping leads somewhere.
#[tactic(auto, unfolding(crate::specs::Mappings::internal_target, crate::specs::Mappings::redirect_target))]
fn leads(node: &Node) -> bool
    ensures { result ≡ is_some (mapping_of node.now) }
{
    if value_texts(node.props.get("sling:internalRedirect"))
        .first()
        .is_some()
    {
        return true;
    }
    node.props.text("sling:redirect").is_some()
}

// The nodes with a pattern after a patch, where it has something at `/etc/map/http` or directly below.
pub(crate) fn patterns_change(alloc: Global, tree: &Tree, patch: &Patch) -> Mem<Option<PatternList>>
    ensures { IfOk result (ArePatternsAfter (node_at tree.now) (patching_at tree.now patch.now)) }
{
    let parent = mappings_path(alloc)?;
    if touches(patch, &parent) {
        return Ok(Some(patterns_of(alloc, tree, patch)?));
    }
    Ok(None)
}

// Puts the nodes with a pattern after a change in the place of those before it, where it has any.
pub(crate) fn put_patterns(patterns: &mut PatternList, change: Option<PatternList>)
    ensures { patterns.new ≡ unwrap_or change patterns.old }
{
    if let Some(changed) = change {
        *patterns = changed;
    }
}

// Whether a patch has something at a path, or at a kid's.
fn touches(patch: &Patch, parent: &Path) -> bool
    ensures { result ≡ touches patch.now parent.now }
{
    for place in 0..patch.len() {
        let Some(entry) = patch.at(place) else {
            continue;
        };
        if is_of_family(entry.0, parent) {
            return true;
        }
    }
    false
}

// Whether a path is another or one of a kid of it.
fn is_of_family(path: &Path, parent: &Path) -> bool
    ensures { result ≡ is_of_family path.now parent.now }
{
    path.is_under(parent) && path.depth() <= parent.depth() + 1
}
