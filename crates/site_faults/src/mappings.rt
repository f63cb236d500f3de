//! Mappings that lead nowhere, or in a circle.
ghost use Rattle.url_maps.specs.Claims.{IsIndexOf};

use crate::pattern_samples::{Sample, sample_of};
use crate::redirect_targets::asked_again;
use overlay_merge::MergedView;
use regex_rules::{Pattern, PatternFault};
use resource_tree::{Node, Tree};
use sp_base::{Items, Mem, NoMemory, Path, TextBuf, value_texts};
use std::alloc::Global;
use std::collections::BTreeMap;
use url_maps::{MapAnswer, MapIndex};
use url_split::split;

/// How many redirects may follow each other. Clients give up after more or fewer.
const MOST_REDIRECTS: usize = 20;

/// The depth of the nodes of hosts, and of those with a pattern: `/etc/map/http`, and their name.
const HOST_DEPTH: usize = 4;

/// Where a mapping leads.
#[derive(Drop)]
pub enum MappingEnd {
    /// To a resource, or to another server.
    Somewhere,
    /// To this text, which names no resource.
    Nowhere(TextBuf),
    /// From redirect to redirect, and back to an earlier one.
    InCircles,
    /// To more than 20 redirects, one after the other.
    TooFar,
    /// Nowhere, since the node at this path, above it, has a `sling:match`.
    PassedOver(Path),
    /// Nowhere, since the publisher is asked at the host and the port of this name alone.
    NotAsked(TextBuf),
}

/// A mapping that leads to no resource.
#[derive(Drop)]
pub struct LostMapping {
    /// The mapping's own, or that of a host that isn't asked.
    pub node: Path,
    pub end: MappingEnd,
}

pub type LostMappingList = Items<LostMapping>;

// The name of the node of the host and the port at which the publisher is asked, and whether these are known.
#[derive(Clone, Copy, Drop)]
struct Asked<'a> {
    name: &'a str,
    is_known: bool,
}

// The host and the port that the name of a node below /etc/map/http is for. None where no request is for it: a request's host is in
// lower case, and its port as numbers are written.
fn host_and_port(name: &str) -> Option<(&str, u16)> {
    if name.as_bytes().iter().any(|byte| byte.is_ascii_uppercase()) {
        return None;
    }
    let at = name.rfind('.')?;
    let port = &name[at + 1..];
    if (port != "0" && port.starts_with('0')) || port.starts_with('+') {
        return None;
    }
    match port.parse() {
        Ok(port) => Some((&name[..at], port)),
        Err(_) => None,
    }
}

// Whether a path is that of a mapping: `/etc/map/http`, a name, and what follows.
pub(crate) fn is_mapping_path(path: &Path) -> bool {
    path.seg(0) == Some("etc")
        && path.seg(1) == Some("map")
        && path.seg(2) == Some("http")
        && path.depth() >= HOST_DEPTH
}

// Whether a node has a target.
pub(crate) fn leads(node: &Node) -> bool {
    !value_texts(node.props.get("sling:internalRedirect")).is_empty()
        || node.props.text("sling:redirect").is_some()
}

fn has_match(node: &Node) -> bool {
    node.props.get("sling:match").is_some()
}

// What a mapping is asked for: its path below the name of its host and port.
fn prefix_of(alloc: Global, path: &Path) -> Mem<TextBuf> {
    let mut text = String::new(alloc);
    for depth in HOST_DEPTH..path.depth() {
        if let Some(segment) = path.seg(depth) {
            text.push_str("/")?;
            text.push_str(segment)?;
        }
    }
    Ok(TextBuf::from(text))
}

// What a text that is asked for leads to.
#[derive(Drop)]
enum Lead {
    End(MappingEnd),
    /// A redirect to this text, which is asked for at the same host.
    Again(TextBuf),
}

// Where a text leads that is asked for at a host and a port. Redirects are followed where they are to be, and only to a path: this server
// answers another text with 400.
fn follow(
    alloc: Global,
    tree: &Tree,
    index: &MapIndex,
    host_port: (&str, u16),
    follows: bool,
    text: &TextBuf,
) -> Mem<Lead>
    requires { IsIndexOf tree.now index.now }
{
    match index.map_in(alloc, tree, host_port.0, host_port.1, text.text())? {
        MapAnswer::Inside(inside) => Ok(Lead::End(inside_end(alloc, tree, inside)?)),
        MapAnswer::Away(_, target) if follows => {
            match asked_again(alloc, text.text(), target.text())? {
                Some(again) => follow_again(alloc, again),
                None => Ok(Lead::End(MappingEnd::Somewhere)),
            }
        }
        MapAnswer::Away(_, _) => Ok(Lead::End(MappingEnd::Somewhere)),
    }
}

fn follow_again(alloc: Global, again: TextBuf) -> Mem<Lead> {
    match Path::read_or_none(alloc, again.text())? {
        Some(_) => Ok(Lead::Again(again)),
        None => Ok(Lead::End(MappingEnd::Nowhere(again))),
    }
}

// Where a text leads that is asked for at the host and the port of this name. Redirects are followed where the publisher is asked, and
// nowhere else.
fn end_of(
    alloc: Global,
    tree: &Tree,
    index: &MapIndex,
    asked: &str,
    name: &str,
    text: TextBuf,
) -> Mem<MappingEnd>
    requires { IsIndexOf tree.now index.now }
{
    let Some(host_port) = host_and_port(name) else {
        return Ok(MappingEnd::Somewhere);
    };
    let mut followed = BTreeMap::new(alloc);
    let mut text = text;
    for _ in 0..MOST_REDIRECTS + 1 {
        match follow(alloc, tree, index, host_port, name == asked, &text)? {
            Lead::End(end) => return Ok(end),
            Lead::Again(again) => {
                followed.insert(text, ())?;
                if followed.contains_key(&again) {
                    return Ok(MappingEnd::InCircles);
                }
                text = again;
            }
        }
    }
    Ok(MappingEnd::TooFar)
}

// An empty target leaves what follows the prefix, which is known to the one who asks.
fn inside_end(alloc: Global, tree: &Tree, text: TextBuf) -> Mem<MappingEnd> {
    if text.text().is_empty() || split(alloc, &MergedView { tree }, text.text())?.is_some() {
        Ok(MappingEnd::Somewhere)
    } else {
        Ok(MappingEnd::Nowhere(text))
    }
}

// The path of the node above a mapping for whose `sling:match` it is passed over.
fn passed_over_for(alloc: Global, tree: &Tree, path: &Path) -> Mem<Option<Path>> {
    for depth in HOST_DEPTH..path.depth() {
        let above = path.first(alloc, depth)?;
        if let Some(node) = tree.node(&above) {
            if has_match(node) {
                return Ok(Some(above));
            }
        }
    }
    Ok(None)
}

// Where a mapping by its path leads.
fn path_end(
    alloc: Global,
    tree: &Tree,
    index: &MapIndex,
    asked: Asked<'_>,
    path: &Path,
) -> Mem<MappingEnd>
    requires { IsIndexOf tree.now index.now }
{
    if let Some(above) = passed_over_for(alloc, tree, path)? {
        return Ok(MappingEnd::PassedOver(above));
    }
    let Some(name) = path.seg(3) else {
        return Ok(MappingEnd::Somewhere);
    };
    if asked.is_known && name != asked.name {
        return Ok(MappingEnd::NotAsked(TextBuf::of(alloc, asked.name)?));
    }
    let text = prefix_of(alloc, path)?;
    end_of(alloc, tree, index, asked.name, name, text)
}

// Where a mapping by a pattern leads, by a text that it matches. What is wrong with the pattern itself is told elsewhere.
fn pattern_end(
    alloc: Global,
    tree: &Tree,
    index: &MapIndex,
    asked: &str,
    path: &Path,
    node: &Node,
) -> Mem<MappingEnd>
    requires { IsIndexOf tree.now index.now }
{
    if path.depth() != HOST_DEPTH {
        return Ok(MappingEnd::Somewhere);
    }
    let Some(text) = node.props.text("sling:match") else {
        return Ok(MappingEnd::Somewhere);
    };
    let pattern = match Pattern::read(alloc, text.text()) {
        Ok(pattern) => pattern,
        Err(PatternFault::NoMemory) => return Err(NoMemory),
        Err(_) => return Ok(MappingEnd::Somewhere),
    };
    match sample_of(alloc, &pattern, text.text(), asked)? {
        Some(Sample { host, path }) => end_of(alloc, tree, index, asked, host.text(), path),
        None => Ok(MappingEnd::Somewhere),
    }
}

// The name of the node of a host and a port.
fn name_of(alloc: Global, host: &str, port: u16) -> Mem<String> {
    let mut name = host.to_ascii_lowercase(alloc)?;
    name.push_str(".")?;
    name.push_str(port.to_string(alloc)?.as_str())?;
    Ok(name)
}

fn tell_mapping(
    told: &mut LostMappingList,
    alloc: Global,
    path: &Path,
    end: MappingEnd,
) -> Mem<()> {
    let node = match &end {
        MappingEnd::Somewhere => return Ok(()),
        MappingEnd::NotAsked(_) => path.first(alloc, HOST_DEPTH)?,
        _ => path.duplicate(alloc)?,
    };
    told.push(LostMapping { node, end })?;
    Ok(())
}

/// The mappings that lead to no resource, in no order that is promised, where the publisher is asked at a host and a port. Where these
/// aren't known it is taken to be asked at `localhost` and 80, and no mapping is told for its host.
pub fn lost_mappings(alloc: Global, tree: &Tree, ask: Option<(&str, u16)>) -> Mem<LostMappingList> {
    let index = MapIndex::of(alloc, tree)?;
    let (host, port) = ask.unwrap_or(("localhost", 80));
    let name = name_of(alloc, host, port)?;
    let asked = Asked {
        name: name.as_str(),
        is_known: ask.is_some(),
    };
    let mut told = Items::new(alloc);
    let rows = tree.rows(alloc)?;
    for row in rows.as_slice() {
        if is_mapping_path(row.0) && leads(row.1) {
            let end = if has_match(row.1) {
                pattern_end(alloc, tree, &index, asked.name, row.0, row.1)?
            } else {
                path_end(alloc, tree, &index, asked, row.0)?
            };
            tell_mapping(&mut told, alloc, row.0, end)?;
        }
    }
    Ok(told)
}
