//! The name that a new node gets.
ghost use Rattle.std.specs.Prelude.{◌≡◌, IfOk};
ghost use Rattle.tree_draft.specs.Drafts.{IsSound};
ghost use Rattle.post_apply.specs.Marks.{MarksTaken};
ghost use Rattle.post_apply.specs.Names as spec;

use crate::numbers::{is_marked, marked_numbers};
use crate::removals::has_property;
use post_plan::NameWish;
use sp_base::{Mem, NoMemory, Path, TextBuf};
use std::alloc::Global;
use tree_draft::Draft;

// Whether a kid or a property of the parent has the name.
#[tactic(auto, using(crate::proofs::NameLemmas::no_path))]
fn is_taken(alloc: Global, draft: &Draft, parent: &Path, name: &str) -> Mem<bool>
    requires { IsSound draft.now }
    ensures { IfOk result (λ b. b ≡ spec.is_taken draft.now.content parent.now name.now) }
{
    if has_property(draft, parent, name) {
        return Ok(true);
    }
    match parent.child_or_none(alloc, name)? {
        Some(kid) => Ok(draft.node(&kid).is_some()),
        None => Ok(false),
    }
}

fn numbered(alloc: Global, name: &str, n: usize) -> Mem<TextBuf>
    ensures { IfOk result (λ t. t ≡ spec.numbered_name name.now n) }
{
    Ok(TextBuf::from(format!(in alloc; "{name}_{n}")?))
}

// A name with the least number with which it isn't taken, where the numbers that kids take are marked, so that few are looked up.
#[tactic(auto, using(crate::proofs::NameLemmas::passed, crate::proofs::NameLemmas::passed_marked, crate::proofs::NameLemmas::found, crate::proofs::NameLemmas::last))]
fn first_free(
    alloc: Global,
    draft: &Draft,
    parent: &Path,
    name: &str,
    marks: &[bool],
    most: usize,
) -> Mem<TextBuf>
    requires sound { IsSound draft.now }
    requires marks { MarksTaken draft.now.content parent.now name.now marks.now }
    ensures { IfOk result (λ t. t ≡ spec.numbered_name name.now (spec.free_number draft.now.content parent.now name.now 0 most)) }
{
    for n in 0..most {
        if is_marked(marks, n) {
            continue;
        }
        let made = numbered(alloc, name, n)?;
        if !is_taken(alloc, draft, parent, made.text())? {
            return Ok(made);
        }
    }
    numbered(alloc, name, most)
}

// A name with the least number with which it isn't taken: at most as many as the parent has kids and properties.
fn free_numbered(alloc: Global, draft: &Draft, parent: &Path, name: &str) -> Mem<TextBuf>
    requires { IsSound draft.now }
    ensures { IfOk result (λ t. t ≡ spec.free_numbered draft.now.content parent.now name.now) }
{
    let Some(node) = draft.node(parent) else {
        return numbered(alloc, name, 0);
    };
    let kids = node.kids(alloc)?;
    let Some(most) = kids.len().checked_add(node.props().len()) else {
        return Err(NoMemory);
    };
    let marks = marked_numbers(alloc, &kids, name, most)?;
    first_free(alloc, draft, parent, name, &marks, most)
}

/// The name of a new node below a parent.
pub fn name_given(alloc: Global, draft: &Draft, parent: &Path, wish: &NameWish) -> Mem<TextBuf>
    requires { IsSound draft.now }
    ensures { IfOk result (λ t. t ≡ spec.name_given draft.now.content parent.now wish.now) }
{
    match wish {
        NameWish::Exact(name) => name.duplicate(alloc),
        NameWish::Hint(name) => {
            if is_taken(alloc, draft, parent, name.text())? {
                return free_numbered(alloc, draft, parent, name.text());
            }
            name.duplicate(alloc)
        }
    }
}
