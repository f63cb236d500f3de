//! The content parameters of a form.
ghost use Rattle.std.specs.Prelude.{◌≡◌, IfOk};
ghost use Rattle.post_plan.specs.Entries as spec;

use crate::Spot;
use crate::node::TargetNode;
use crate::parameters::{path_text, suffix_of};
use crate::spots::spot_of;
use crate::suffix::Suffix;
use crate::words::{ContentNames, any_marked, is_content};
use sp_base::{Mem, TextBuf};
use std::alloc::Global;
use std::marker::Model;

/// A content parameter: the spot and the suffix of its name, and its word.
#[derive(Drop)]
pub struct Entry<'a> {
    pub spot: Spot,
    pub suffix: Suffix,
    pub word: &'a str,
}

impl<'a> Model for Entry<'a> {
    ghost use Rattle.post_plan.specs.Entries.{Entry as ContentEntry};

    ghost Value = { ContentEntry };

    ghost view = { λ e. record { spot = e.spot; suffix = e.suffix; word = e.word.now } };
}

fn entry_of<'a>(
    alloc: Global,
    node: &TargetNode,
    name: &str,
    word: &'a str,
) -> Mem<Option<Entry<'a>>>
    ensures { IfOk result (λ o. o ≡ spec.parameter_entry node.now (name.now, word.now)) }
{
    let Some(spot) = spot_of(alloc, node, path_text(name))? else {
        return Ok(None);
    };
    match suffix_of(name) {
        Some(suffix) => Ok(Some(Entry { spot, suffix, word })),
        None => Ok(None),
    }
}

/// The content parameters of a form, seen from a node.
pub fn entries<'a>(
    alloc: Global,
    node: &TargetNode,
    pairs: &'a [(TextBuf, TextBuf)],
) -> Mem<Vec<Entry<'a>>>
    ensures { IfOk result (λ es. es.items ≡ spec.entries node.now pairs.now) }
{
    let marked = any_marked(pairs);
    let mut found = Vec::new(alloc);
    for (name, word) in pairs {
        if is_content(ContentNames { marked }, name.text())
            && let Some(entry) = entry_of(alloc, node, name.text(), word.text())?
        {
            found.push(entry)?;
        }
    }
    Ok(found)
}
