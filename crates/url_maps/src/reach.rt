// How far into a text the prefix of a mapping may reach.
ghost use Rattle.std.specs.Prelude.{◌≡◌, ◌++◌, IfOk, Some};
ghost use Rattle.url_maps.specs.Patterns.{node_of_host};
ghost use Rattle.url_maps.specs.Search.{HasNoMappingBeyond, IsBarredAt, is_passable};

use crate::asked::HostText;
use crate::mappings::host_node_of;
use resource_tree::Tree;
use sp_base::{Mem, Path, a_path_and_its_text, the_prefixes_of_a_path};
use std::alloc::Global;

// The most bytes of the prefix of a mapping in a text: no mapping is below the first of the host node and the text's segments that has no
// node, or one with a pattern.
pub(crate) fn reach_of(
    alloc: Global,
    tree: &Tree,
    asked: &Option<HostText>,
    text: &str,
) -> Mem<usize>
    ensures { IfOk result (HasNoMappingBeyond tree.now (node_of_host asked.now) text.now) }
{
    // `len` says that nodes are at paths alone.
    let _ = tree.len();
    match host_node_of(asked) {
        Some(host_node) => reach_below(alloc, tree, host_node, text),
        None => Ok(0),
    }
}

fn reach_below(alloc: Global, tree: &Tree, host_node: &Path, text: &str) -> Mem<usize>
    ensures { IfOk result (HasNoMappingBeyond tree.now (Some host_node.now) text.now) }
{
    a_path_and_its_text();
    the_prefixes_of_a_path();
    // `len` says that the parent of each node is there.
    let _ = tree.len();
    if !is_plain_node(tree, host_node) {
        return Ok(0);
    }
    let Some(path) = Path::read_or_none(alloc, text)? else {
        return Ok(text.len());
    };
    let depth = barred_at(alloc, tree, host_node, &path)?;
    let reached = path.first(alloc, depth)?;
    Ok(reached.as_text().len())
}

// How many first segments of a path lead to no node below a host node, or to one with a pattern, while fewer lead on: all, where all do.
fn barred_at(alloc: Global, tree: &Tree, host_node: &Path, path: &Path) -> Mem<usize>
    ensures { IfOk result (IsBarredAt tree.now host_node.now path.now) }
{
    let depth = path.depth();
    for n in 0..depth {
        let first = path.first(alloc, n + 1)?;
        if !is_passable(alloc, tree, host_node, &first)? {
            return Ok(n + 1);
        }
    }
    Ok(depth)
}

fn is_passable(alloc: Global, tree: &Tree, host_node: &Path, below: &Path) -> Mem<bool>
    ensures { IfOk result (λ is. is ≡ is_passable tree.now (host_node.now ++ below.now)) }
{
    // `len` says that nodes are at paths alone.
    let _ = tree.len();
    match host_node.join_or_none(alloc, below)? {
        Some(path) => Ok(is_plain_node(tree, &path)),
        None => Ok(false),
    }
}

// Whether a node is at a path, and that one without a pattern: one look-up for both.
#[tactic(auto, unfolding(crate::specs::Mappings::has_match))]
fn is_plain_node(tree: &Tree, path: &Path) -> bool
    ensures { result ≡ is_passable tree.now path.now }
{
    match tree.node(path) {
        Some(node) => !node.props.get("sling:match").is_some(),
        None => false,
    }
}
