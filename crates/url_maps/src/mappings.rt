// The mappings of a host and a port.
ghost use Rattle.std.specs.Prelude.{◌≡◌, ◌↔◌, IfOk, IsTrue, Some, option_and_then, option_copied};
ghost use Rattle.sp_base.specs.Paths.{path_or_none};
ghost use Rattle.url_maps.specs.Mappings.{IsPlain, has_match, redirect_status, mapping_status};
ghost use Rattle.url_maps.specs.Patterns.{node_of_host};
ghost use Rattle.url_maps.specs.Search.{IsBeyond, IsMappingOf, IsMappingPair, mapped_path};

use crate::asked::HostText;
use crate::pairs::{Pair, PairKind};
use crate::words::number;
use resource_tree::{Node, Tree};
use sp_base::{Mem, Path, a_path_and_its_text, value_texts};
use std::alloc::Global;

/// The status of a redirect whose mapping names none (RFC 9110, section 15.4.3).
const FOUND: u16 = 302;

// The pair of a mapping of the host node, if mappings are asked for and the tree has one with this prefix, where no mapping's prefix
// has more bytes than the reach.
pub(crate) fn mapping_within(
    alloc: Global,
    tree: &Tree,
    asked: &Option<HostText>,
    reach: usize,
    prefix: &str,
) -> Mem<Option<Pair>>
    requires { IsBeyond tree.now (node_of_host asked.now) prefix.now reach }
    ensures { IfOk result (IsMappingOf tree.now (node_of_host asked.now) prefix.now) }
{
    // `len` says that nodes are at paths alone.
    let _ = tree.len();
    if prefix.len() > reach {
        return Ok(None);
    }
    match host_node_of(asked) {
        Some(host_node) => mapping_below(alloc, tree, host_node, prefix),
        None => Ok(None),
    }
}

// The path of the host node, if there is one.
pub(crate) fn host_node_of(asked: &Option<HostText>) -> Option<&Path>
    ensures { option_copied result ≡ option_and_then path_or_none (node_of_host asked.now) }
{
    match asked {
        Some(asked) => asked.host_node(),
        None => None,
    }
}

fn mapping_below(alloc: Global, tree: &Tree, host_node: &Path, prefix: &str) -> Mem<Option<Pair>>
    ensures { IfOk result (IsMappingOf tree.now (Some host_node.now) prefix.now) }
{
    a_path_and_its_text();
    let _ = tree.len();
    let Some(path) = mapped_path(alloc, host_node, prefix)? else {
        return Ok(None);
    };
    let Some(node) = tree.node(&path) else {
        return Ok(None);
    };
    let Some(pair) = pair_of(alloc, node)? else {
        return Ok(None);
    };
    if !is_plain(alloc, tree, host_node, &path)? {
        return Ok(None);
    }
    Ok(Some(pair))
}

// The path below a host node that a prefix names: the host node for the empty one.
fn mapped_path(alloc: Global, host_node: &Path, prefix: &str) -> Mem<Option<Path>>
    ensures { IfOk result (λ o. o ≡ mapped_path host_node.now prefix.now) }
{
    if prefix.is_empty() {
        return Ok(Some(host_node.duplicate(alloc)?));
    }
    if prefix == "/" {
        return Ok(None);
    }
    match Path::read_or_none(alloc, prefix)? {
        Some(below) => host_node.join_or_none(alloc, &below),
        None => Ok(None),
    }
}

// Whether no node from a host node down to a path has a pattern.
fn is_plain(alloc: Global, tree: &Tree, host_node: &Path, path: &Path) -> Mem<bool>
    ensures { IfOk result (λ is. IsTrue is ↔ IsPlain tree.now host_node.now path.now) }
{
    let deepest = path.depth();
    for depth in host_node.depth()..deepest + 1 {
        if has_match(tree, &path.first(alloc, depth)?) {
            return Ok(false);
        }
    }
    Ok(true)
}

#[tactic(auto, unfolding(crate::specs::Mappings::has_match))]
pub(crate) fn has_match(tree: &Tree, path: &Path) -> bool
    ensures { result ≡ has_match tree.now path.now }
{
    match tree.node(path) {
        Some(node) => node.props.get("sling:match").is_some(),
        None => false,
    }
}

// Where the node of a mapping leads.
#[tactic(auto, unfolding(crate::specs::Mappings::internal_target, crate::specs::Mappings::redirect_target))]
pub(crate) fn pair_of(alloc: Global, node: &Node) -> Mem<Option<Pair>>
    ensures { IfOk result (λ o. IsMappingPair node.now o) }
{
    if let Some(target) = value_texts(node.props.get("sling:internalRedirect")).first() {
        return Ok(Some(Pair {
            kind: PairKind::Mapping,
            target: target.duplicate(alloc)?,
            away: None,
        }));
    }
    match node.props.text("sling:redirect") {
        Some(target) => Ok(Some(Pair {
            kind: PairKind::Mapping,
            target: target.duplicate(alloc)?,
            away: Some(status_of(node)),
        })),
        None => Ok(None),
    }
}

fn status_of(node: &Node) -> u16
    ensures { result ≡ mapping_status node.now }
{
    match number(node.props.get("sling:status")) {
        Some(n) => redirect_status(n).unwrap_or(FOUND),
        None => FOUND,
    }
}

fn redirect_status(n: i64) -> Option<u16>
    ensures { result ≡ redirect_status n }
{
    match n {
        301 => Some(301),
        302 => Some(302),
        303 => Some(303),
        307 => Some(307),
        308 => Some(308),
        _ => None,
    }
}
