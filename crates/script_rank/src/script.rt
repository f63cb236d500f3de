//! Scripts, and their texts.
ghost use Rattle.std.specs.Prelude.{◌≡◌, ◌==◌, true, false, drop, IfOk, IfSome, IfNone, option_copied, slice_index};
ghost use Rattle.sp_base.specs.Paths.{child_of};
ghost use Rattle.url_split.specs.Split.{known_one};
ghost use Rattle.script_rank.specs.Ranking.{script_text};
ghost use Rattle.script_rank.specs.ScriptPlaceSearch.{script_below};

use crate::lookup::Scripts;
use resource_tree::Tree;
use sp_base::{Mem, NoMemory, Path, PathFault, TextBuf};
use std::alloc::Global;

/// The script below a place by a text of a slash and a name. No script lies below the root itself.
#[tactic(auto, unfolding(crate::specs::ScriptPlaceSearch::script_below))]
pub(crate) fn script_below<S: Scripts>(
    alloc: Global,
    scripts: &S,
    place: &Path,
    text: &str,
) -> Mem<Option<Path>>
    ensures { IfOk result (λ o. o ≡ script_below (S.tells scripts.now) place.now text.now) }
{
    if place.depth() == 0 {
        return Ok(None);
    }
    match after_slash(text) {
        Some(name) => script_in(alloc, scripts, place, name),
        None => Ok(None),
    }
}

fn after_slash(text: &str) -> Option<&str>
    ensures some { IfSome result (λ rest. ((slice_index text.now 0 == 47) ≡ true) × (rest.now ≡ drop 1 text.now)) }
    ensures none { IfNone result ((slice_index text.now 0 == 47) ≡ false) }
{
    text.strip_prefix('/')
}

// The script of this name below a place.
fn script_in<S: Scripts>(alloc: Global, scripts: &S, place: &Path, name: &str) -> Mem<Option<Path>>
    ensures { IfOk result (λ o. o ≡ known_one (S.tells scripts.now) (child_of place.now name.now)) }
{
    let path = match place.child(alloc, name) {
        Ok(path) => path,
        Err(PathFault::NoMemory) => return Err(NoMemory),
        Err(_) => return Ok(None),
    };
    if scripts.has(alloc, &path)? {
        Ok(Some(path))
    } else {
        Ok(None)
    }
}

/// The text of a script: the text `jcr:data` of its kid `jcr:content`.
#[tactic(auto, unfolding(crate::specs::Ranking::script_text))]
pub fn script_text<'a>(alloc: Global, tree: &'a Tree, path: &Path) -> Mem<Option<&'a TextBuf>>
    ensures { IfOk result (λ o. option_copied o ≡ script_text tree.entry.now path.now) }
{
    let content = match path.child(alloc, "jcr:content") {
        Ok(content) => content,
        Err(PathFault::NoMemory) => return Err(NoMemory),
        Err(_) => return Ok(None),
    };
    match tree.node(&content) {
        Some(node) => Ok(node.props.text("jcr:data")),
        None => Ok(None),
    }
}
