//! The name that a POST wishes for a new node.
ghost use Rattle.std.specs.Prelude.{◌≡◌, IfOk, map, option_copied};
ghost use Rattle.post_plan.specs.NewNames as spec;
ghost use Rattle.post_plan.specs.Plan as plan;

use crate::NameWish;
use crate::naming::made_name;
use crate::verb::{is_modify, verb_of};
use crate::words::first_word;
use sp_base::{Mem, TextBuf};
use std::alloc::Global;

/// The parameters whose words a name is made from.
const SOURCES: [&str; 8] = [
    "title",
    "jcr:title",
    "name",
    "description",
    "jcr:description",
    "abstract",
    "text",
    "jcr:text",
];

// The first word of a name that isn't empty.
fn full_word<'a>(name: &str, pairs: &'a [(TextBuf, TextBuf)]) -> Option<&'a str>
    ensures { option_copied result ≡ spec.full_word name.now pairs.now }
{
    let mut rest = pairs;
    while let [(other, word), more @ ..] = rest {
        if other.text() == name && !word.text().is_empty() {
            return Some(word.text());
        }
        rest = more;
    }
    None
}

// The first word, not empty, of these parameters.
#[tactic(auto, unfolding(crate::specs::NewNames::source_in))]
fn source_in<'a>(names: &[&str], pairs: &'a [(TextBuf, TextBuf)]) -> &'a str
    ensures { result.now ≡ spec.source_in (map (λ n. n.now) names.now) pairs.now }
{
    let mut rest = names;
    while let [name, more @ ..] = rest {
        if let Some(word) = full_word(name, pairs) {
            return word;
        }
        rest = more;
    }
    ""
}

fn first_source<'a>(pairs: &'a [(TextBuf, TextBuf)]) -> &'a str
    ensures { result.now ≡ spec.first_source pairs.now }
{
    source_in(&SOURCES, pairs)
}

/// The name of a new node: `:name`, else one made from `:nameHint`, else from the first word, not empty, of the sources.
pub fn wish_of(alloc: Global, pairs: &[(TextBuf, TextBuf)]) -> Mem<NameWish>
    ensures { IfOk result (λ wish. wish ≡ spec.wish_of pairs.now) }
{
    if let Some(name) = first_word(":name", pairs) {
        return Ok(NameWish::Exact(TextBuf::of(alloc, name)?));
    }
    let source = match first_word(":nameHint", pairs) {
        Some(word) => word,
        None => first_source(pairs),
    };
    Ok(NameWish::Hint(made_name(alloc, source)?))
}

/// The name itself.
pub fn name_in(wish: &NameWish) -> &str
    ensures { result.now ≡ spec.wished_name wish.now }
{
    match wish {
        NameWish::Exact(name) => name.text(),
        NameWish::Hint(name) => name.text(),
    }
}

/// How the target of a POST ends.
#[derive(Clone, Copy, Drop)]
pub struct TargetEnding {
    /// A star, or a slash instead of it, asks for a new node under the target.
    pub star: bool,
}

/// The name of the new node that a form asks for, where it does.
pub fn fresh_wish(
    alloc: Global,
    ending: TargetEnding,
    pairs: &[(TextBuf, TextBuf)],
) -> Mem<Option<NameWish>>
    ensures { IfOk result (λ o. o ≡ plan.fresh_wish ending.star pairs.now) }
{
    if ending.star && is_modify(verb_of(pairs)) {
        Ok(Some(wish_of(alloc, pairs)?))
    } else {
        Ok(None)
    }
}
