//! Why a form asks for no operation: the first fault in the order of their kinds.
ghost use Rattle.std.specs.Prelude.{◌≡◌, IfOk, is_none, option_copied};
ghost use Rattle.post_plan.specs.Hints as hint;
ghost use Rattle.post_plan.specs.Plan as spec;

use crate::goals::goal_of;
use crate::hints::hint_of;
use crate::node::{TargetNode, is_merged_node, node_of, node_text};
use crate::orders::place_named;
use crate::parameters::{path_text, suffix_of};
use crate::spots::spot_of;
use crate::suffix::Suffix;
use crate::verb::{carries_node, verb_of};
use crate::wishes::{fresh_wish, name_in};
use crate::words::{ContentNames, any_marked, first_word, is_content};
use crate::{NameWish, PlanFault, TargetEnding};
use sp_base::{Mem, Path, TextBuf, seg_ok};
use std::alloc::Global;

/// The word of `:dest`, empty where there is none.
pub fn dest_word(pairs: &[(TextBuf, TextBuf)]) -> &str
    ensures { result.now ≡ spec.dest_word pairs.now }
{
    match first_word(":dest", pairs) {
        Some(word) => word,
        None => "",
    }
}

fn is_bad_order(alloc: Global, word: Option<&str>) -> Mem<bool>
    ensures { IfOk result (λ bad. bad ≡ spec.is_bad_order (option_copied word.entry)) }
{
    match word {
        Some(word) => Ok(place_named(alloc, word)?.is_none()),
        None => Ok(false),
    }
}

fn is_bad_word(suffix: Option<Suffix>, word: &str) -> bool
    ensures { result ≡ hint.is_bad_word suffix word.now }
{
    match suffix {
        None => true,
        Some(Suffix::TypeHint) => hint_of(word).is_none(),
        Some(_) => false,
    }
}

// The name of the first content parameter with an unknown suffix or an unknown type.
fn bad_hint(pairs: &[(TextBuf, TextBuf)]) -> Option<&str>
    ensures { option_copied result ≡ hint.bad_hint pairs.now }
{
    let marked = any_marked(pairs);
    let mut rest = pairs;
    while let [(name, word), more @ ..] = rest {
        if is_content(ContentNames { marked }, name.text())
            && is_bad_word(suffix_of(name.text()), word.text())
        {
            return Some(name.text());
        }
        rest = more;
    }
    None
}

fn names_source(suffix: Option<Suffix>) -> bool
    ensures { result ≡ spec.names_source suffix }
{
    match suffix {
        Some(Suffix::MoveFrom) => true,
        Some(Suffix::CopyFrom) => true,
        _ => false,
    }
}

// The text of a content parameter that names nothing that may be changed.
fn bad_entry<'a>(
    alloc: Global,
    node: &TargetNode,
    name: &'a str,
    word: &'a str,
) -> Mem<Option<&'a str>>
    ensures { IfOk result (λ o. option_copied o ≡ spec.bad_entry node.now (name.now, word.now)) }
{
    let path = path_text(name);
    if spot_of(alloc, node, path)?.is_none() {
        return Ok(Some(path));
    }
    if names_source(suffix_of(name)) && spot_of(alloc, node, word)?.is_none() {
        return Ok(Some(word));
    }
    Ok(None)
}

/// What is wrong with the parameters as a whole, and which of them are content.
#[derive(Clone, Copy, Drop)]
struct Verdict {
    dest: bool,
    name: bool,
    marked: bool,
}

// The text of a parameter that is no path, or leads to what isn't changed.
fn bad_text<'a>(
    alloc: Global,
    node: &TargetNode,
    verdict: Verdict,
    name: &'a str,
    word: &'a str,
) -> Mem<Option<&'a str>>
    ensures { IfOk result (λ o. option_copied o ≡ spec.bad_text node.now verdict.dest verdict.name verdict.marked (name.now, word.now)) }
{
    if name == ":dest" {
        return Ok(if verdict.dest { Some(word) } else { None });
    }
    if name == ":name" {
        return Ok(if verdict.name { Some(word) } else { None });
    }
    let names = ContentNames {
        marked: verdict.marked,
    };
    if is_content(names, name) {
        bad_entry(alloc, node, name, word)
    } else {
        Ok(None)
    }
}

#[tactic(auto, unfolding(crate::specs::Plan::first_bad))]
fn first_bad<'a>(
    alloc: Global,
    node: &TargetNode,
    verdict: Verdict,
    pairs: &'a [(TextBuf, TextBuf)],
) -> Mem<Option<&'a str>>
    ensures { IfOk result (λ o. option_copied o ≡ spec.first_bad (spec.bad_text node.now verdict.dest verdict.name verdict.marked) pairs.now) }
{
    let mut rest = pairs;
    while let [(name, word), more @ ..] = rest {
        if let Some(text) = bad_text(alloc, node, verdict, name.text(), word.text())? {
            return Ok(Some(text));
        }
        rest = more;
    }
    Ok(None)
}

fn is_bad_dest(alloc: Global, target: &Path, pairs: &[(TextBuf, TextBuf)]) -> Mem<bool>
    ensures { IfOk result (λ bad. bad ≡ spec.is_bad_dest target.now pairs.now) }
{
    if carries_node(verb_of(pairs)) {
        Ok(goal_of(alloc, target, dest_word(pairs))?.is_none())
    } else {
        Ok(false)
    }
}

fn is_bad_name(wish: &Option<NameWish>) -> bool
    ensures { result ≡ spec.is_bad_wish wish.now }
{
    match wish {
        Some(wish) => !seg_ok(name_in(wish)),
        None => false,
    }
}

// The first text that is no path, or leads to what isn't changed: the node's, else that of a parameter.
fn path_fault(
    alloc: Global,
    target: &Path,
    ending: TargetEnding,
    pairs: &[(TextBuf, TextBuf)],
) -> Mem<Option<PlanFault>>
    ensures { IfOk result (λ o. o ≡ spec.path_fault target.now ending.star pairs.now) }
{
    let wish = fresh_wish(alloc, ending, pairs)?;
    let node = node_of(target, &wish);
    if is_merged_node(alloc, &node) {
        return Ok(Some(PlanFault::BadPath(node_text(alloc, &node)?)));
    }
    let verdict = Verdict {
        dest: is_bad_dest(alloc, target, pairs)?,
        name: is_bad_name(&wish),
        marked: any_marked(pairs),
    };
    match first_bad(alloc, &node, verdict, pairs)? {
        Some(text) => Ok(Some(PlanFault::BadPath(TextBuf::of(alloc, text)?))),
        None => Ok(None),
    }
}

/// The first fault of a form, in the order of the enum.
pub fn fault_of(
    alloc: Global,
    target: &Path,
    ending: TargetEnding,
    pairs: &[(TextBuf, TextBuf)],
) -> Mem<Option<PlanFault>>
    ensures { IfOk result (λ o. o ≡ spec.first_plan_fault (spec.faults target.now ending.star pairs.now)) }
{
    let verb = verb_of(pairs);
    if verb.is_none() {
        return Ok(Some(PlanFault::BadOperation));
    }
    if carries_node(verb) && dest_word(pairs).is_empty() {
        return Ok(Some(PlanFault::NoDest));
    }
    if is_bad_order(alloc, first_word(":order", pairs))? {
        return Ok(Some(PlanFault::BadOrder));
    }
    if let Some(name) = bad_hint(pairs) {
        return Ok(Some(PlanFault::BadHint(TextBuf::of(alloc, name)?)));
    }
    path_fault(alloc, target, ending, pairs)
}
