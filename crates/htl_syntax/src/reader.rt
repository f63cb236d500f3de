//! The reader, line by line of the grammar.

ghost use Rattle.std.specs.Prelude.{◌≡◌, ◌<◌, [], ◌∷◌, length, slice_index, Ok, true, false};
ghost use Rattle.htl_syntax.specs.Tokens.{Gives};
ghost use Rattle.htl_syntax.specs.Read as spec;
ghost use Rattle.htl_syntax.specs.Steps as steps;
ghost use Rattle.htl_syntax.specs.Grammar.{nesting_limit};
ghost use Rattle.htl_syntax.specs.declared.node.ExprNode.TheVariants as expr_node;

use crate::access::{accessed, first_access};
use crate::node::{Comparison, ExprNode};
use crate::numbers::number;
use crate::stop::ExprStop;
use crate::tokens::{
    NameKind, begins_with_byte, digit_at, expect, name, quote_at, remainder, second, skip, string,
    tail,
};
use sp_base::TextBuf;
use sqlite_items::{Boxed, Items as NodeList};
use std::alloc::Global;

/// What nests: a choice in brackets or after a `?`, the operand of a `!`, the items of a list.
#[derive(Clone, Copy, Drop)]
pub enum Nested {
    Choice,
    Operand,
    Items,
}

// A node and what follows it after `&&`, if anything does; and what is left to read.
fn and_of(
    alloc: Global,
    e: ExprNode,
    more: NodeList<ExprNode>,
    rest: &str,
) -> Result<(ExprNode, &str), ExprStop>
    ensures { Gives (λ x. (x.0, x.1.now)) result (steps.followed_by (spec.and_of e more) rest.now) }
{
    if more.len() == 0 {
        return Ok((e, rest));
    }
    let e = Boxed::new(alloc, e)?;
    Ok((ExprNode::And(e, more), rest))
}

// The same with `||`.
fn or_of(
    alloc: Global,
    e: ExprNode,
    more: NodeList<ExprNode>,
    rest: &str,
) -> Result<(ExprNode, &str), ExprStop>
    ensures { Gives (λ x. (x.0, x.1.now)) result (steps.followed_by (spec.or_of e more) rest.now) }
{
    if more.len() == 0 {
        return Ok((e, rest));
    }
    let e = Boxed::new(alloc, e)?;
    Ok((ExprNode::Or(e, more), rest))
}

fn word_of(word: TextBuf) -> ExprNode
    ensures { result ≡ spec.word_node word }
{
    if word.text() == "true" {
        ExprNode::Truth(true)
    } else if word.text() == "false" {
        ExprNode::Truth(false)
    } else {
        ExprNode::Variable(word)
    }
}

#[tactic(auto, unfolding(crate::specs::Read::compares))]
fn compares(text: &str) -> bool
    ensures { result ≡ spec.compares text.now }
{
    begins_with_byte(b'=', text)
        || (begins_with_byte(b'!', text)
            || (begins_with_byte(b'<', text) || begins_with_byte(b'>', text)))
}

/// `<` or `<=`, `>` or `>=`.
#[tactic(auto, unfolding(crate::specs::Read::or_equal))]
fn or_equal(bare: Comparison, equal: Comparison, text: &str) -> (Comparison, &str)
    requires { slice_index text.now 0 < 128 }
    ensures { (result.0, result.1.now) ≡ spec.or_equal bare equal text.now }
{
    let rest = tail(text);
    if begins_with_byte(b'=', rest) {
        (equal, remainder(b'=', rest))
    } else {
        (bare, skip(rest))
    }
}

#[tactic(auto, using(crate::proofs::Scan::prefix_ascii), unfolding(crate::specs::Read::comparison, crate::specs::Read::compares))]
fn comparison(text: &str) -> Result<(Comparison, &str), ExprStop>
    requires { spec.compares text.now ≡ true }
    ensures { Gives (λ x. (x.0, x.1.now)) result (spec.comparison text.now) }
{
    if begins_with_byte(b'=', text) {
        let rest = second(b'=', text)?;
        Ok((Comparison::Equal, rest))
    } else if begins_with_byte(b'!', text) {
        let rest = second(b'=', text)?;
        Ok((Comparison::NotEqual, rest))
    } else if begins_with_byte(b'<', text) {
        Ok(or_equal(Comparison::Below, Comparison::AtMost, text))
    } else {
        Ok(or_equal(Comparison::Above, Comparison::AtLeast, text))
    }
}

// The first access after `properties`.
fn property(alloc: Global, depth: u32, text: &str) -> Result<(ExprNode, &str), ExprStop>
    ensures { Gives (λ x. (x.0, x.1.now)) result (steps.of_access depth expr_node.Property text.now) }
{
    let (field, rest) = first_access(alloc, depth, text)?;
    Ok((ExprNode::Property(field), rest))
}

// The first access after `resource`.
fn resource(alloc: Global, depth: u32, text: &str) -> Result<(ExprNode, &str), ExprStop>
    ensures { Gives (λ x. (x.0, x.1.now)) result (steps.of_access depth expr_node.Resource text.now) }
{
    let (field, rest) = first_access(alloc, depth, text)?;
    Ok((ExprNode::Resource(field), rest))
}

/// A literal or a variable; `properties` and `resource` with their first access.
#[tactic(auto, unfolding(crate::specs::Read::name_or_object))]
fn name_or_object(alloc: Global, depth: u32, text: &str) -> Result<(ExprNode, &str), ExprStop>
    ensures { Gives (λ x. (x.0, x.1.now)) result (spec.name_or_object depth text.now) }
{
    let (word, rest) = name(alloc, NameKind::Name, text)?;
    if word.text() == "properties" {
        property(alloc, depth, rest)
    } else if word.text() == "resource" {
        resource(alloc, depth, rest)
    } else {
        Ok((word_of(word), rest))
    }
}

#[tactic(auto, unfolding(crate::specs::Read::primary))]
fn primary(alloc: Global, depth: u32, text: &str) -> Result<(ExprNode, &str), ExprStop>
    ensures { Gives (λ x. (x.0, x.1.now)) result (spec.primary depth text.now) }
{
    if quote_at(text) {
        let (s, rest) = string(alloc, text)?;
        Ok((ExprNode::Text(s), rest))
    } else if begins_with_byte(b'-', text) || digit_at(text) {
        let (n, rest) = number(text)?;
        Ok((ExprNode::Long(n), rest))
    } else {
        name_or_object(alloc, depth, text)
    }
}

/// What stands after the byte that nests it.
#[cycle(reader)]
#[tactic(auto, unfolding(crate::specs::Read::nesting))]
fn nesting(
    alloc: Global,
    depth: u32,
    inside: Nested,
    text: &str,
) -> Result<(ExprNode, &str), ExprStop>
    requires { slice_index text.now 0 < 128 }
    ensures { Gives (λ x. (x.0, x.1.now)) result (spec.nesting depth inside text.now) }
{
    if depth == 0 {
        return Err(ExprStop::TooDeep(text.len()));
    }
    let rest = skip(tail(text));
    match inside {
        Nested::Choice => choice(alloc, depth - 1, rest),
        Nested::Operand => operand(alloc, depth - 1, rest),
        Nested::Items => items(alloc, depth - 1, rest),
    }
}

/// What stands between two brackets.
#[cycle(reader)]
fn bracketed(
    alloc: Global,
    depth: u32,
    inside: Nested,
    closing: u8,
    text: &str,
) -> Result<(ExprNode, &str), ExprStop>
    requires opening { slice_index text.now 0 < 128 }
    requires closing { closing < 128 }
    ensures { Gives (λ x. (x.0, x.1.now)) result (steps.bracketed depth inside closing text.now) }
{
    let (e, rest) = nesting(alloc, depth, inside, text)?;
    let rest = expect(closing, rest)?;
    Ok((e, rest))
}

#[cycle(reader)]
#[tactic(auto, using(crate::proofs::Scan::prefix_ascii), unfolding(crate::specs::Read::start))]
fn start(alloc: Global, depth: u32, text: &str) -> Result<(ExprNode, &str), ExprStop>
    ensures { Gives (λ x. (x.0, x.1.now)) result (spec.start depth (spec.nesting depth) text.now) }
{
    if begins_with_byte(b'(', text) {
        bracketed(alloc, depth, Nested::Choice, b')', text)
    } else if begins_with_byte(b'[', text) {
        bracketed(alloc, depth, Nested::Items, b']', text)
    } else {
        primary(alloc, depth, text)
    }
}

#[cycle(reader)]
#[tactic(auto, unfolding(crate::specs::Read::atom))]
fn atom(alloc: Global, depth: u32, text: &str) -> Result<(ExprNode, &str), ExprStop>
    ensures { Gives (λ x. (x.0, x.1.now)) result (spec.atom depth (spec.nesting depth) text.now) }
{
    let (e, rest) = start(alloc, depth, text)?;
    accessed(alloc, depth, e, rest)
}

#[cycle(reader)]
#[tactic(auto, using(crate::proofs::Scan::prefix_ascii), unfolding(crate::specs::Read::operand))]
fn operand(alloc: Global, depth: u32, text: &str) -> Result<(ExprNode, &str), ExprStop>
    ensures { Gives (λ x. (x.0, x.1.now)) result (spec.operand depth (spec.nesting depth) text.now) }
{
    if begins_with_byte(b'!', text) {
        let (e, rest) = nesting(alloc, depth, Nested::Operand, text)?;
        return Ok((ExprNode::Not(Boxed::new(alloc, e)?), rest));
    }
    atom(alloc, depth, text)
}

/// A comparison and the operand after it.
#[cycle(reader)]
fn compared_with(
    alloc: Global,
    depth: u32,
    text: &str,
) -> Result<(Comparison, Boxed<ExprNode>, &str), ExprStop>
    requires { spec.compares text.now ≡ true }
    ensures { Gives (λ x. ((x.0, x.1), x.2.now)) result (steps.compared_with depth text.now) }
{
    let (op, rest) = comparison(text)?;
    let (b, rest) = operand(alloc, depth, rest)?;
    let b = Boxed::new(alloc, b)?;
    Ok((op, b, rest))
}

#[cycle(reader)]
#[tactic(auto, unfolding(crate::specs::Read::compare))]
fn compare(alloc: Global, depth: u32, text: &str) -> Result<(ExprNode, &str), ExprStop>
    ensures { Gives (λ x. (x.0, x.1.now)) result (spec.compare depth (spec.nesting depth) text.now) }
{
    let (a, rest) = operand(alloc, depth, text)?;
    if !compares(rest) {
        return Ok((a, rest));
    }
    let a = Boxed::new(alloc, a)?;
    let (op, b, rest) = compared_with(alloc, depth, rest)?;
    Ok((ExprNode::Compare(op, a, b), rest))
}

/// The operands after the first one and their `&&`.
#[cycle(reader)]
#[tactic(auto, using(crate::proofs::Scan::prefix_ascii), unfolding(crate::specs::Read::chain))]
fn more_compares(
    alloc: Global,
    depth: u32,
    text: &str,
) -> Result<(NodeList<ExprNode>, &str), ExprStop>
    ensures { Gives (λ x. (x.0, x.1.now)) result (spec.chain (spec.compare depth (spec.nesting depth)) 38 (length text.now) [] text.now) }
{
    let mut found = NodeList::new(alloc);
    let mut rest = text;
    for _turn in 0..text.len() {
        if !begins_with_byte(b'&', rest) {
            return Ok((found, rest));
        }
        let after = second(b'&', rest)?;
        let (x, after) = compare(alloc, depth, after)?;
        found.push(x)?;
        rest = after;
    }
    Ok((found, rest))
}

#[cycle(reader)]
#[tactic(auto, unfolding(crate::specs::Read::both))]
fn both(alloc: Global, depth: u32, text: &str) -> Result<(ExprNode, &str), ExprStop>
    ensures { Gives (λ x. (x.0, x.1.now)) result (spec.both depth (spec.nesting depth) text.now) }
{
    let (e, rest) = compare(alloc, depth, text)?;
    let (more, rest) = more_compares(alloc, depth, rest)?;
    and_of(alloc, e, more, rest)
}

/// The operands after the first one and their `||`.
#[cycle(reader)]
#[tactic(auto, using(crate::proofs::Scan::prefix_ascii), unfolding(crate::specs::Read::chain))]
fn more_boths(alloc: Global, depth: u32, text: &str) -> Result<(NodeList<ExprNode>, &str), ExprStop>
    ensures { Gives (λ x. (x.0, x.1.now)) result (spec.chain (spec.both depth (spec.nesting depth)) 124 (length text.now) [] text.now) }
{
    let mut found = NodeList::new(alloc);
    let mut rest = text;
    for _turn in 0..text.len() {
        if !begins_with_byte(b'|', rest) {
            return Ok((found, rest));
        }
        let after = second(b'|', rest)?;
        let (x, after) = both(alloc, depth, after)?;
        found.push(x)?;
        rest = after;
    }
    Ok((found, rest))
}

#[cycle(reader)]
#[tactic(auto, unfolding(crate::specs::Read::either))]
fn either(alloc: Global, depth: u32, text: &str) -> Result<(ExprNode, &str), ExprStop>
    ensures { Gives (λ x. (x.0, x.1.now)) result (spec.either depth (spec.nesting depth) text.now) }
{
    let (e, rest) = both(alloc, depth, text)?;
    let (more, rest) = more_boths(alloc, depth, rest)?;
    or_of(alloc, e, more, rest)
}

#[cycle(reader)]
#[tactic(auto, using(crate::proofs::Scan::prefix_ascii), unfolding(crate::specs::Read::other_choice))]
fn other_choice(alloc: Global, depth: u32, text: &str) -> Result<(ExprNode, &str), ExprStop>
    ensures { Gives (λ x. (x.0, x.1.now)) result (spec.other_choice depth (spec.nesting depth) text.now) }
{
    if begins_with_byte(b':', text) {
        nesting(alloc, depth, Nested::Choice, text)
    } else {
        Err(ExprStop::Unexpected(text.len()))
    }
}

/// What is chosen if the condition holds, and if not.
#[cycle(reader)]
fn choices(
    alloc: Global,
    depth: u32,
    text: &str,
) -> Result<(Boxed<ExprNode>, Boxed<ExprNode>, &str), ExprStop>
    requires { slice_index text.now 0 < 128 }
    ensures { Gives (λ x. ((x.0, x.1), x.2.now)) result (steps.both_choices depth text.now) }
{
    let (a, rest) = nesting(alloc, depth, Nested::Choice, text)?;
    let a = Boxed::new(alloc, a)?;
    let (b, rest) = other_choice(alloc, depth, rest)?;
    let b = Boxed::new(alloc, b)?;
    Ok((a, b, rest))
}

#[cycle(reader)]
#[tactic(auto, using(crate::proofs::Scan::prefix_ascii), unfolding(crate::specs::Read::choice))]
fn choice(alloc: Global, depth: u32, text: &str) -> Result<(ExprNode, &str), ExprStop>
    ensures { Gives (λ x. (x.0, x.1.now)) result (spec.choice depth (spec.nesting depth) text.now) }
{
    let (c, rest) = either(alloc, depth, text)?;
    if !begins_with_byte(b'?', rest) {
        return Ok((c, rest));
    }
    let c = Boxed::new(alloc, c)?;
    let (a, b, rest) = choices(alloc, depth, rest)?;
    Ok((ExprNode::Choice(c, a, b), rest))
}

/// The items after the first one and their commas.
#[cycle(reader)]
#[tactic(auto, unfolding(crate::specs::Read::chain))]
fn more_items(
    alloc: Global,
    depth: u32,
    first: ExprNode,
    text: &str,
) -> Result<(NodeList<ExprNode>, &str), ExprStop>
    ensures { Gives (λ x. (x.0, x.1.now)) result (spec.chain (spec.choice depth (spec.nesting depth)) 44 (length text.now) (first ∷ []) text.now) }
{
    let mut found = NodeList::new(alloc);
    found.push(first)?;
    let mut rest = text;
    for _turn in 0..text.len() {
        if !begins_with_byte(b',', rest) {
            return Ok((found, rest));
        }
        let after = expect(b',', rest)?;
        let (x, after) = choice(alloc, depth, after)?;
        found.push(x)?;
        rest = after;
    }
    Ok((found, rest))
}

/// The items of a list, up to the bracket that closes it.
#[cycle(reader)]
#[tactic(auto, unfolding(crate::specs::Read::items))]
fn items(alloc: Global, depth: u32, text: &str) -> Result<(ExprNode, &str), ExprStop>
    ensures { Gives (λ x. (x.0, x.1.now)) result (spec.items depth (spec.nesting depth) text.now) }
{
    if begins_with_byte(b']', text) {
        return Ok((ExprNode::List(NodeList::new(alloc)), text));
    }
    let (first, rest) = choice(alloc, depth, text)?;
    let (all, rest) = more_items(alloc, depth, first, rest)?;
    Ok((ExprNode::List(all), rest))
}

/// How many levels may nest.
const NESTING_LIMIT: u32 = 32;

/// Nothing, or a choice in which that many levels may nest.
#[tactic(auto, unfolding(crate::specs::Read::optional_choice))]
pub fn first(alloc: Global, text: &str) -> Result<(Option<ExprNode>, &str), ExprStop>
    ensures { Gives (λ x. (x.0, x.1.now)) result (spec.optional_choice nesting_limit text.now) }
{
    if text.is_empty() || begins_with_byte(b'@', text) {
        return Ok((None, text));
    }
    let (e, rest) = choice(alloc, NESTING_LIMIT, text)?;
    Ok((Some(e), rest))
}
