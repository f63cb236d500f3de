//! Accesses: `.name` and `["name"]`.

ghost use Rattle.std.specs.Prelude.{◌≡◌, [], length, Ok, true};
ghost use Rattle.sp_base.specs.Bytes.{begins_with_byte};
ghost use Rattle.htl_syntax.specs.Read as spec;
ghost use Rattle.htl_syntax.specs.Steps as steps;
ghost use Rattle.htl_syntax.specs.Tokens.{Gives};

use crate::node::ExprNode;
use crate::stop::ExprStop;
use crate::tokens::{NameKind, begins_with_byte, expect, name, remainder, string};
use sp_base::{TextBuf, TextList};
use sqlite_items::Boxed;
use std::alloc::Global;

// A node with its accesses, if it has any, and what is left to read.
fn access_of(
    alloc: Global,
    e: ExprNode,
    fields: TextList,
    rest: &str,
) -> Result<(ExprNode, &str), ExprStop>
    ensures { Gives (λ x. (x.0, x.1.now)) result (steps.followed_by (spec.access_of e fields) rest.now) }
{
    if fields.len() == 0 {
        return Ok((e, rest));
    }
    let e = Boxed::new(alloc, e)?;
    Ok((ExprNode::Access(e, fields), rest))
}

#[tactic(auto, unfolding(crate::specs::Read::access_at))]
fn access_at(text: &str) -> bool
    ensures { result ≡ spec.access_at text.now }
{
    begins_with_byte(b'.', text) || begins_with_byte(b'[', text)
}

#[tactic(auto, unfolding(crate::specs::Read::bracket_access))]
fn bracket_access(alloc: Global, depth: u32, text: &str) -> Result<(TextBuf, &str), ExprStop>
    requires { begins_with_byte 91 text.now ≡ true }
    ensures { Gives (λ x. (x.0, x.1.now)) result (spec.bracket_access depth text.now) }
{
    if depth == 0 {
        return Err(ExprStop::TooDeep(text.len()));
    }
    let (s, rest) = string(alloc, remainder(b'[', text))?;
    let rest = expect(b']', rest)?;
    Ok((s, rest))
}

#[tactic(auto, unfolding(crate::specs::Read::access, crate::specs::Read::access_at))]
fn access(alloc: Global, depth: u32, text: &str) -> Result<(TextBuf, &str), ExprStop>
    requires { spec.access_at text.now ≡ true }
    ensures { Gives (λ x. (x.0, x.1.now)) result (spec.access depth text.now) }
{
    if begins_with_byte(b'.', text) {
        name(alloc, NameKind::Field, remainder(b'.', text))
    } else {
        bracket_access(alloc, depth, text)
    }
}

/// An access that has to be there.
#[tactic(auto, unfolding(crate::specs::Read::first_access))]
pub fn first_access(alloc: Global, depth: u32, text: &str) -> Result<(TextBuf, &str), ExprStop>
    ensures { Gives (λ x. (x.0, x.1.now)) result (spec.first_access depth text.now) }
{
    if access_at(text) {
        access(alloc, depth, text)
    } else {
        Err(ExprStop::Unexpected(text.len()))
    }
}

#[tactic(auto, unfolding(crate::specs::Read::accesses))]
fn accesses(alloc: Global, depth: u32, text: &str) -> Result<(TextList, &str), ExprStop>
    ensures { Gives (λ x. (x.0, x.1.now)) result (spec.accesses depth (length text.now) [] text.now) }
{
    let mut found = TextList::new(alloc);
    let mut rest = text;
    for _turn in 0..text.len() {
        if !access_at(rest) {
            return Ok((found, rest));
        }
        let (field, after) = access(alloc, depth, rest)?;
        found.push(field)?;
        rest = after;
    }
    Ok((found, rest))
}

/// A node with the accesses that follow it.
pub fn accessed(
    alloc: Global,
    depth: u32,
    e: ExprNode,
    text: &str,
) -> Result<(ExprNode, &str), ExprStop>
    ensures { Gives (λ x. (x.0, x.1.now)) result (steps.accessed depth e text.now) }
{
    let (fields, rest) = accesses(alloc, depth, text)?;
    access_of(alloc, e, fields, rest)
}
