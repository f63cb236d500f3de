//! Properties `sling:match` by which nothing is mapped.

ghost use Rattle.std.specs.Prelude.{Some};
ghost use Rattle.site_faults.specs.FaultTexts.{match_fault_text};

use crate::mappings::{is_mapping_path, leads};
use crate::pattern_samples::begins_with_slash;
use regex_rules::{Pattern, PatternFault};
use resource_tree::{Node, Tree};
use sp_base::{Items, Mem, NoMemory, Path, TextBuf};
use std::alloc::Global;
use std::fmt;

/// The depth of the nodes at which patterns count: directly below `/etc/map/http`.
const PATTERN_DEPTH: usize = 4;

/// Why nothing is mapped by a `sling:match`.
#[derive(Drop)]
pub enum MatchFault {
    /// Its node is deeper than directly below `/etc/map/http`.
    Misplaced,
    /// It is no text.
    NoText,
    /// With what stands at this position of this text no pattern goes on.
    NoPattern(TextBuf, usize),
    /// The bracket at this position of this text nests deeper than 32.
    TooDeep(TextBuf, usize),
    /// Its node leads nowhere.
    NoTarget,
    /// It begins with a slash, where the host would stand.
    NoHost,
}

impl fmt::Display for MatchFault {
    ghost output = { λ fault. Some (match_fault_text fault) };

    fn fmt<W: fmt::Write>(&self, f: &mut fmt::Formatter<W>) -> fmt::Result {
        match self {
            MatchFault::Misplaced => f.write_str("Misplaced"),
            MatchFault::NoText => f.write_str("NoText"),
            MatchFault::NoPattern(_, at) => write!(f, "NoPattern at {at}"),
            MatchFault::TooDeep(_, at) => write!(f, "TooDeep at {at}"),
            MatchFault::NoTarget => f.write_str("NoTarget"),
            MatchFault::NoHost => f.write_str("NoHost"),
        }
    }
}

/// A `sling:match` by which nothing is mapped.
#[derive(Drop)]
pub struct IdleMatch {
    pub node: Path,
    pub fault: MatchFault,
}

pub type IdleMatchList = Items<IdleMatch>;

// What is wrong with a text that is to be a pattern.
fn text_fault(alloc: Global, text: &TextBuf) -> Mem<Option<MatchFault>> {
    match Pattern::read(alloc, text.text()) {
        Ok(_) => Ok(None),
        Err(PatternFault::BadPattern(at)) => {
            Ok(Some(MatchFault::NoPattern(text.duplicate(alloc)?, at)))
        }
        Err(PatternFault::TooDeep(at)) => {
            Ok(Some(MatchFault::TooDeep(text.duplicate(alloc)?, at)))
        }
        Err(PatternFault::NoMemory) => Err(NoMemory),
    }
}

// What is wrong with a pattern of a node.
fn pattern_fault(alloc: Global, text: &TextBuf, node: &Node) -> Mem<Option<MatchFault>> {
    if !leads(node) {
        return Ok(Some(MatchFault::NoTarget));
    }
    if begins_with_slash(alloc, text.text())? {
        return Ok(Some(MatchFault::NoHost));
    }
    Ok(None)
}

// What is wrong with the `sling:match` of a node at a path.
fn match_fault(alloc: Global, path: &Path, node: &Node) -> Mem<Option<MatchFault>> {
    if path.depth() > PATTERN_DEPTH {
        return Ok(Some(MatchFault::Misplaced));
    }
    let Some(text) = node.props.text("sling:match") else {
        return Ok(Some(MatchFault::NoText));
    };
    match text_fault(alloc, text)? {
        None => pattern_fault(alloc, text, node),
        fault => Ok(fault),
    }
}

/// The properties `sling:match` below `/etc/map/http` by which nothing is mapped, in no order that is promised.
pub fn idle_matches(alloc: Global, tree: &Tree) -> Mem<IdleMatchList> {
    let mut told = Items::new(alloc);
    let rows = tree.rows(alloc)?;
    for row in rows.as_slice() {
        if is_mapping_path(row.0) && row.1.props.get("sling:match").is_some() {
            if let Some(fault) = match_fault(alloc, row.0, row.1)? {
                told.push(IdleMatch {
                    node: row.0.duplicate(alloc)?,
                    fault,
                })?;
            }
        }
    }
    Ok(told)
}
