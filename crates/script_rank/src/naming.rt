//! What of a request a script is named after, the closest first.
ghost use Rattle.std.specs.Prelude.{◌≡◌, ◌++◌, IfOk, OnOk};
ghost use Rattle.script_rank.specs.Search.{is_html, namings, with_selectors};

use sp_base::{MOST_SEGMENTS, Mem};
use std::alloc::Global;
use url_split::Parts;

/// The most selectors that a script is named after: a path has no more segments.
const MOST_SELECTORS: usize = MOST_SEGMENTS;

/// What of a request a script is named after.
#[derive(Clone, Copy, Drop)]
pub enum Naming {
    /// The first n selectors, and the extension.
    SelectorsAndExtension(usize),
    /// The first n selectors. It serves html.
    Selectors(usize),
    /// The label of the type, which is its last segment, and the extension.
    LabelAndExtension,
    Extension,
    /// The label of the type. It serves html.
    Label,
    /// The method. It serves html.
    Method,
}

// Whether a request asks for html, which a script need not name.
fn is_html(parts: &Parts) -> bool
    ensures { result ≡ is_html parts.now }
{
    parts.extension.text() == "html"
}

/// The namings that a request allows, the closest first. One without an extension allows none.
pub(crate) fn namings(alloc: Global, parts: &Parts) -> Mem<Vec<Naming>>
    ensures { IfOk result (λ list. list.items ≡ namings parts.now) }
{
    let mut list = Vec::new(alloc);
    if parts.extension.text().is_empty() {
        return Ok(list);
    }
    let html = is_html(parts);
    add_with_selectors(&mut list, parts.selectors.len().min(MOST_SELECTORS), html)?;
    list.push(Naming::LabelAndExtension)?;
    list.push(Naming::Extension)?;
    if html {
        list.push(Naming::Label)?;
        list.push(Naming::Method)?;
    }
    Ok(list)
}

// Adds the namings after selectors, those after more of them first.
fn add_with_selectors(list: &mut Vec<Naming>, count: usize, html: bool) -> Mem<()>
    ensures { OnOk result (list.new.items ≡ list.old.items ++ with_selectors html count) }
{
    let mut left = count;
    while left > 0 {
        list.push(Naming::SelectorsAndExtension(left))?;
        if html {
            list.push(Naming::Selectors(left))?;
        }
        left -= 1;
    }
    Ok(())
}
