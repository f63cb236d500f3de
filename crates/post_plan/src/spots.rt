//! The spots that texts name, seen from a node.
ghost use Rattle.std.specs.Prelude.{◌≡◌, ◌<◌, ◌++◌, ◌-◌, IfOk, not, option_and_then, length, map, option_copied, slice_get, string_bytes};
ghost use Rattle.std.specs.List.{list_all};
ghost use Rattle.sp_base.specs.Paths.{is_path, path_or_none, pieces, seg_ok};
ghost use Rattle.sp_base.specs.PathTexts.{spelling_of};
ghost use Rattle.resource_tree.specs.MergeRoots.{is_merged_path};
ghost use Rattle.post_plan.specs.Spots as spec;

use crate::Spot;
use crate::node::{TargetNode, is_merged_below, is_merged_path};
use crate::relative::{RelativePath, relative_path_of};
use sp_base::{MOST_SEGMENTS, Mem, Path, a_path_and_its_text, seg_ok};
use std::alloc::Global;

fn count(text: &str) -> usize
    ensures { result ≡ length (pieces text.now) }
{
    text.split('/').count()
}

fn piece_at(text: &str, n: usize) -> Option<&str>
    ensures { option_copied result ≡ slice_get (pieces text.now) n }
{
    text.split('/').nth(n)
}

#[tactic(auto, using(crate::proofs::PieceLemmas::last_there, crate::proofs::PieceLemmas::last_absent))]
pub fn ends_in_name(text: &str) -> bool
    ensures { result ≡ spec.ends_in_name text.now }
{
    match piece_at(text, count(text).saturating_sub(1)) {
        Some(piece) => seg_ok(piece),
        None => seg_ok(""),
    }
}

pub fn is_absolute(text: &str) -> bool
    ensures { result ≡ spec.is_absolute text.now }
{
    text.as_bytes().starts_with(b"/")
}

// Whether each name may be a segment.
fn are_segments(names: &[&str]) -> bool
    ensures { result ≡ list_all (λ n. seg_ok n.now) names.now }
{
    let mut rest = names;
    while let [name, more @ ..] = rest {
        if !seg_ok(name) {
            return false;
        }
        rest = more;
    }
    true
}

// Whether segments make a path.
#[tactic(auto, using(crate::proofs::PieceLemmas::lent_path))]
fn make_path(names: &[&str]) -> bool
    ensures { result ≡ is_path (map (λ n. n.now) names.now) }
{
    are_segments(names) && names.len() <= MOST_SEGMENTS
}

// A slash before each segment. It is one text, since a path of its own for each segment would copy those before it once more.
fn spelled(alloc: Global, names: &[&str]) -> Mem<String>
    ensures { IfOk result (λ t. string_bytes t ≡ spelling_of (map (λ n. n.now) names.now)) }
{
    let mut text = String::new(alloc);
    for name in names {
        text.push_str("/")?;
        text.push_str(name)?;
    }
    Ok(text)
}

// The path of segments, where they make one.
fn path_of_segments(alloc: Global, names: &[&str]) -> Mem<Option<Path>>
    ensures { IfOk result (λ o. o ≡ path_or_none (map (λ n. n.now) names.now)) }
{
    // A path's text reads as the path.
    a_path_and_its_text();
    if names.is_empty() {
        return Ok(Some(Path::root(alloc)));
    }
    if !make_path(names) {
        return Ok(None);
    }
    let text = spelled(alloc, names)?;
    Path::read_or_none(alloc, text.as_str())
}

// The path with further segments, where that is one.
fn extended(alloc: Global, base: Path, names: &[&str]) -> Mem<Option<Path>>
    ensures { IfOk result (λ o. o ≡ path_or_none (base ++ map (λ n. n.now) names.now)) }
{
    match path_of_segments(alloc, names)? {
        Some(below) => base.join_or_none(alloc, &below),
        None => Ok(None),
    }
}

// The path that a relative path leads to from a node.
pub fn led_to(alloc: Global, node: &Path, relative: &RelativePath) -> Mem<Option<Path>>
    ensures { IfOk result (λ o. o ≡ spec.led_to node.now relative.now) }
{
    let depth = node.depth();
    if relative.up > depth {
        return Ok(None);
    }
    let above = node.first(alloc, depth - relative.up)?;
    extended(alloc, above, relative.down.as_slice())
}

fn absolute_spot(path: Option<Path>) -> Option<Spot>
    ensures { result ≡ spec.spot_there path }
{
    match path {
        Some(path) => Some(Spot {
            at_target: false,
            path,
        }),
        None => None,
    }
}

fn spot_below(path: Option<Path>) -> Option<Spot>
    ensures { result ≡ spec.spot_below path }
{
    match path {
        Some(path) => Some(Spot {
            at_target: true,
            path,
        }),
        None => None,
    }
}

// The path that a relative path leads to from a node which it leaves upwards.
#[tactic(auto, using(crate::proofs::NodeLemmas::led_under))]
fn led_up(alloc: Global, node: &TargetNode, relative: RelativePath) -> Mem<Option<Path>>
    requires { 0 < relative.up }
    ensures { IfOk result (λ o. o ≡ spec.led_to node.now relative.entry) }
{
    match node.name {
        None => led_to(alloc, node.parent, &relative),
        Some(_) => {
            let RelativePath { up, down } = relative;
            led_to(alloc, node.parent, &RelativePath { up: up - 1, down })
        }
    }
}

fn relative_spot(alloc: Global, node: &TargetNode, relative: RelativePath) -> Mem<Option<Spot>>
    ensures { IfOk result (λ o. o ≡ spec.relative_spot node.now relative.entry) }
{
    if relative.up == 0 {
        let path = path_of_segments(alloc, relative.down.as_slice())?;
        return Ok(spot_below(path));
    }
    Ok(absolute_spot(led_up(alloc, node, relative)?))
}

fn any_spot(alloc: Global, node: &TargetNode, text: &str) -> Mem<Option<Spot>>
    ensures { IfOk result (λ o. o ≡ spec.any_spot node.now text.now) }
{
    if is_absolute(text) {
        return Ok(absolute_spot(Path::read_or_none(alloc, text)?));
    }
    match relative_path_of(alloc, text)? {
        Some(relative) => relative_spot(alloc, node, relative),
        None => Ok(None),
    }
}

fn is_changeable(node: &TargetNode, spot: &Spot) -> bool
    ensures { result ≡ not (is_merged_path (spec.full_path node.now spot.now)) }
{
    if spot.at_target {
        !is_merged_below(node, &spot.path)
    } else {
        !is_merged_path(&spot.path)
    }
}

fn if_changeable(node: &TargetNode, spot: Option<Spot>) -> Option<Spot>
    ensures { result ≡ option_and_then (spec.if_changeable node.now) spot }
{
    match spot {
        Some(spot) => {
            if is_changeable(node, &spot) {
                Some(spot)
            } else {
                None
            }
        }
        None => None,
    }
}

/// The property or node that a text names, seen from a node, where that may be changed.
pub fn spot_of(alloc: Global, node: &TargetNode, text: &str) -> Mem<Option<Spot>>
    ensures { IfOk result (λ o. o ≡ spec.spot_of node.now text.now) }
{
    if !ends_in_name(text) {
        return Ok(None);
    }
    Ok(if_changeable(node, any_spot(alloc, node, text)?))
}
