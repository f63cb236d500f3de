//! How the names of scripts are spelled.
ghost use Rattle.std.specs.Prelude.{◌≡◌, OnOk, ◌++◌, ◌∷◌, codes, flat_map, string_bytes, take};
ghost use Rattle.script_rank.specs.ScriptPlaceSearch.{spelling_with};

use crate::Naming;
use sp_base::{Mem, TextBuf};
use url_split::Parts;

/// Spells the name of a script after the place of a type with this label, with a mark between selectors and extension.
pub(crate) fn spell(
    text: &mut String,
    parts: &Parts,
    label: &str,
    naming: Naming,
    mark: &str,
) -> Mem<()>
    ensures { OnOk result (string_bytes text.new ≡ spelling_with parts.now label.now naming mark.now ++ codes ".html") }
{
    let extension = parts.extension.text();
    let selectors = parts.selectors.as_slice();
    text.clear();
    match naming {
        Naming::SelectorsAndExtension(count) => {
            add_selectors(text, first(selectors, count))?;
            add_texts(text, &[mark, extension, ".html"])
        }
        Naming::Selectors(count) => {
            add_selectors(text, first(selectors, count))?;
            add_texts(text, &[".html"])
        }
        Naming::LabelAndExtension => add_texts(text, &["/", label, ".", extension, ".html"]),
        Naming::Extension => add_texts(text, &["/", extension, ".html"]),
        Naming::Label => add_texts(text, &["/", label, ".html"]),
        Naming::Method => add_texts(text, &["/GET", ".html"]),
    }
}

fn first(selectors: &[TextBuf], count: usize) -> &[TextBuf]
    ensures { result.now ≡ take count selectors.now }
{
    &selectors[..count.min(selectors.len())]
}

// Adds the selectors, each after a slash.
fn add_selectors(text: &mut String, selectors: &[TextBuf]) -> Mem<()>
    ensures { OnOk result (string_bytes text.new ≡ string_bytes text.old ++ flat_map (λ s. 47 ∷ s) selectors.now) }
{
    for selector in selectors {
        text.push_str("/")?;
        text.push_str(selector.text())?;
    }
    Ok(())
}

fn add_texts(text: &mut String, more: &[&str]) -> Mem<()>
    ensures { OnOk result (string_bytes text.new ≡ string_bytes text.old ++ flat_map (λ s. s.now) more.now) }
{
    for part in more {
        text.push_str(part)?;
    }
    Ok(())
}
