//! The reader of a file.
ghost use Rattle.std.specs.Prelude.{◌≡◌, ◌≢◌, IfOk, IfErr, Ok, Err};
ghost use Rattle.any_config.specs.Tokens.{TokenGives};
ghost use Rattle.any_config.specs.Read as spec;
ghost use Rattle.any_config.specs.Read.{any_of};

use crate::any_fault::AnyFault;
use crate::node::{AnyList, AnyNode};
use crate::stop::AnyStop;
use crate::tokens::{leaf, name, skip, tail};
use sp_base::{TextBuf, begins_with_byte};
use std::alloc::Global;

/// How many groups may be open at a place.
pub const DEEPEST_GROUP: usize = 32;

#[tactic(auto, unfolding(crate::specs::Read::ends_members))]
fn ends_members(text: &[u8]) -> bool
    ensures { result ≡ spec.ends_members text.now }
{
    text.is_empty() || begins_with_byte(b'}', text)
}

// A value of the member that begins where `at` bytes are left.
#[cycle(reader)]
#[tactic(auto, unfolding(crate::specs::Read::value))]
fn value(alloc: Global, depth: usize, at: usize, text: &[u8]) -> Result<(AnyNode, &[u8]), AnyStop>
    ensures { TokenGives (λ x. (x.0, x.1.now)) result (spec.value (spec.group depth) at text.now) }
{
    if begins_with_byte(b'{', text) {
        group(alloc, depth, text)
    } else {
        leaf(alloc, at, text)
    }
}

#[cycle(reader)]
#[tactic(auto, unfolding(crate::specs::Read::member))]
fn member(alloc: Global, depth: usize, text: &[u8]) -> Result<(TextBuf, AnyNode, &[u8]), AnyStop>
    ensures { TokenGives (λ x. ((x.0, x.1), x.2.now)) result (spec.member (spec.group depth) text.now) }
{
    let (name, rest) = name(alloc, text)?;
    let (node, rest) = value(alloc, depth, text.len(), rest)?;
    Ok((name, node, rest))
}

#[cycle(reader)]
#[tactic(auto, unfolding(crate::specs::Read::members, crate::specs::Read::more_members))]
fn members(alloc: Global, depth: usize, text: &[u8]) -> Result<(AnyList, &[u8]), AnyStop>
    ensures { TokenGives (λ x. (x.0, x.1.now)) result (spec.members (spec.group depth) text.now) }
{
    let mut found = AnyList::new(alloc);
    let mut rest = skip(text);
    for _turn in 0..rest.len() {
        if ends_members(rest) {
            return Ok((found, rest));
        }
        let (name, node, after) = member(alloc, depth, rest)?;
        found.push((name, node))?;
        rest = skip(after);
    }
    Ok((found, rest))
}

#[cycle(reader)]
#[tactic(auto, unfolding(crate::specs::Read::braced_group))]
fn opened(alloc: Global, depth: usize, text: &[u8]) -> Result<(AnyNode, &[u8]), AnyStop>
    ensures { TokenGives (λ x. (x.0, x.1.now)) result (spec.braced_group (spec.group depth) text.now) }
{
    let (list, rest) = members(alloc, depth, tail(text))?;
    if !begins_with_byte(b'}', rest) {
        return Err(AnyStop::Unclosed(text.len()));
    }
    Ok((AnyNode::Group(list), tail(rest)))
}

#[cycle(reader)]
fn group(alloc: Global, depth: usize, text: &[u8]) -> Result<(AnyNode, &[u8]), AnyStop>
    ensures { TokenGives (λ x. (x.0, x.1.now)) result (spec.group depth text.now) }
{
    if depth == 0 {
        return Err(AnyStop::TooDeep(text.len()));
    }
    opened(alloc, depth - 1, text)
}

#[tactic(auto, unfolding(crate::specs::Read::file_read))]
fn read(alloc: Global, bytes: &[u8]) -> Result<AnyNode, AnyStop>
    ensures { TokenGives (λ x. x) result (spec.file_read bytes.now) }
{
    let (list, rest) = members(alloc, DEEPEST_GROUP, bytes)?;
    if !rest.is_empty() {
        return Err(AnyStop::BadName(rest.len()));
    }
    Ok(AnyNode::Group(list))
}

/// Reads a `dispatcher.any` file: the group of its members, or the first fault. Of groups that aren't closed the innermost is
/// reported, and only where there is no other fault (Dispatcher manual, "Configuring Dispatcher").
pub fn read_any(alloc: Global, bytes: &[u8]) -> Result<AnyNode, AnyFault>
    ensures ok { IfOk result (λ n. any_of bytes.now ≡ Ok n) }
    ensures err { IfErr result (λ e. e ≢ AnyFault.NoMemory → any_of bytes.now ≡ Err e) }
{
    match read(alloc, bytes) {
        Ok(node) => Ok(node),
        Err(AnyStop::NoMemory) => Err(AnyFault::NoMemory),
        Err(AnyStop::BadName(left)) => Err(AnyFault::BadName(bytes.len().saturating_sub(left))),
        Err(AnyStop::BadQuote(left)) => Err(AnyFault::BadQuote(bytes.len().saturating_sub(left))),
        Err(AnyStop::TooDeep(left)) => Err(AnyFault::TooDeep(bytes.len().saturating_sub(left))),
        Err(AnyStop::Unclosed(left)) => Err(AnyFault::Unclosed(bytes.len().saturating_sub(left))),
    }
}
