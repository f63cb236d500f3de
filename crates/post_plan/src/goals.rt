//! The goal of a copy or a move.
ghost use Rattle.std.specs.Prelude.{◌≡◌, ◌++◌, IfOk};
ghost use Rattle.sp_base.specs.Paths.{path_or_none};
ghost use Rattle.post_plan.specs.Spots as spec;

use crate::node::is_merged_path;
use crate::relative::relative_path_of;
use crate::spots::{ends_in_name, is_absolute, led_to};
use sp_base::{Mem, Path};
use std::alloc::Global;

fn goes_under(word: &str) -> bool
    ensures { result ≡ spec.goes_under word.now }
{
    word.as_bytes().ends_with(b"/")
}

fn without_slash(word: &str) -> &str
    ensures { result.now ≡ spec.word_without_slash word.now }
{
    match word.strip_suffix("/") {
        Some(rest) => { if word.len() > 1 { rest } else { word } }
        None => word,
    }
}

// The path that a text names, absolute or relative.
fn goal_base(alloc: Global, parent: &Path, text: &str) -> Mem<Option<Path>>
    ensures { IfOk result (λ o. o ≡ spec.goal_base parent.now text.now) }
{
    if is_absolute(text) {
        return Path::read_or_none(alloc, text);
    }
    if !ends_in_name(text) {
        return Ok(None);
    }
    match relative_path_of(alloc, text)? {
        Some(relative) => led_to(alloc, parent, &relative),
        None => Ok(None),
    }
}

fn goal_in(path: Option<Path>) -> Option<Path>
    ensures { result ≡ spec.unless_merged path }
{
    match path {
        Some(path) if !is_merged_path(&path) => Some(path),
        _ => None,
    }
}

// The path below a goal, by a target's own name.
fn below(alloc: Global, base: Path, target: &Path) -> Mem<Option<Path>>
    ensures { IfOk result (λ o. o ≡ path_or_none (base ++ spec.own_name target.now)) }
{
    let _depth = base.depth();
    match target.last() {
        Some(name) => base.child_or_none(alloc, name),
        None => Ok(Some(base)),
    }
}

/// The goal that a word names for a target. A relative word is seen from the target's parent, and with a slash at its end the goal
/// lies under what it names, by the target's own name.
pub fn goal_of(alloc: Global, target: &Path, word: &str) -> Mem<Option<Path>>
    ensures { IfOk result (λ o. o ≡ spec.goal_of target.now word.now) }
{
    let parent = target.parent(alloc)?;
    let Some(base) = goal_base(alloc, &parent, without_slash(word))? else {
        return Ok(None);
    };
    if goes_under(word) {
        Ok(goal_in(below(alloc, base, target)?))
    } else {
        Ok(goal_in(Some(base)))
    }
}
