//! Tokens.
ghost use Rattle.std.specs.Prelude.{◌≡◌, ◌≤◌, ◌<◌, length, drop, IfOk, true, IsUtf8};
ghost use Rattle.std.specs.List.{position};
ghost use Rattle.any_config.specs.Tokens as spec;
ghost use Rattle.any_config.specs.Tokens.{TokenGives};

use crate::node::AnyNode;
use crate::stop::AnyStop;
use sp_base::{Mem, TextBuf, begins_with_byte};
use std::alloc::Global;

/// What the first bytes may belong to.
#[derive(Clone, Copy, Drop)]
pub enum ByteRun {
    Name,
    /// A word without quotes.
    Plain,
    /// What stands between two of these marks.
    Quoted(u8),
}

fn is_line_end(c: u8) -> bool
    ensures { result ≡ spec.is_line_end c }
{
    c == b'\n' || c == b'\r'
}

fn is_blank(c: u8) -> bool
    ensures { result ≡ spec.is_config_blank c }
{
    c == b' ' || (c == b'\t' || is_line_end(c))
}

fn is_letter_or_digit(c: u8) -> bool
    ensures { result ≡ spec.is_letter_or_digit c }
{
    (c >= b'A' && c <= b'Z') || ((c >= b'a' && c <= b'z') || (c >= b'0' && c <= b'9'))
}

fn is_name_byte(c: u8) -> bool
    ensures { result ≡ spec.is_config_name_byte c }
{
    is_letter_or_digit(c) || (c == b'_' || (c == b'-' || c == b'.'))
}

fn is_plain_byte(c: u8) -> bool
    ensures { result ≡ spec.is_plain_byte c }
{
    is_name_byte(c) || (c == b':' || c == b'*')
}

fn ends(run: ByteRun, c: u8) -> bool
    ensures { result ≡ spec.ends run c }
{
    match run {
        ByteRun::Name => !is_name_byte(c),
        ByteRun::Plain => !is_plain_byte(c),
        ByteRun::Quoted(mark) => c == mark || is_line_end(c),
    }
}

fn first_end(run: ByteRun, text: &[u8]) -> Option<usize>
    ensures { result ≡ position (spec.ends run) text.now }
{
    text.iter().position(|c| ends(run, *c))
}

/// How many of the first bytes belong to a run.
#[tactic(auto, unfolding(crate::specs::Tokens::run_len))]
fn run_len(run: ByteRun, text: &[u8]) -> usize
    ensures value { result ≡ spec.run_len run text.now }
    ensures within { result ≤ length text.now }
{
    match first_end(run, text) {
        Some(at) => at,
        None => text.len(),
    }
}

/// The bytes from the first one on that is neither a blank nor in a comment.
#[tactic(auto, unfolding(crate::specs::Tokens::comments_skipped))]
pub fn skip(text: &[u8]) -> &[u8]
    ensures { result.now ≡ spec.comments_skipped text.now }
{
    let mut in_comment = false;
    let mut rest = text;
    while let [c, later @ ..] = rest {
        if in_comment {
            in_comment = !is_line_end(*c);
        } else if *c == b'#' {
            in_comment = true;
        } else if !is_blank(*c) {
            return rest;
        }
        rest = later;
    }
    rest
}

/// All but the first byte.
pub fn tail(text: &[u8]) -> &[u8]
    ensures { result.now ≡ drop 1 text.now }
{
    match text {
        [] => text,
        [_, later @ ..] => later,
    }
}

fn text_of(alloc: Global, bytes: &[u8]) -> Mem<TextBuf>
    requires { IsUtf8 bytes.now }
    ensures { IfOk result (λ text. text ≡ bytes.now) }
{
    match str::from_utf8(bytes) {
        Ok(text) => TextBuf::of(alloc, text),
        Err(_) => unreachable!(),
    }
}

/// The name of a member, empty where it has none.
#[tactic(auto, using(crate::proofs::TokenLemmas::name_utf8), unfolding(crate::specs::Tokens::member_name))]
pub fn name(alloc: Global, text: &[u8]) -> Result<(TextBuf, &[u8]), AnyStop>
    ensures { TokenGives (λ x. (x.0, x.1.now)) result (spec.member_name text.now) }
{
    if !begins_with_byte(b'/', text) {
        return Ok((TextBuf::of(alloc, "")?, text));
    }
    let remainder = tail(text);
    let len = run_len(ByteRun::Name, remainder);
    if len == 0 {
        return Err(AnyStop::BadName(text.len()));
    }
    let (bytes, rest) = remainder.split_at(len);
    Ok((text_of(alloc, bytes)?, skip(rest)))
}

#[tactic(auto, using(crate::proofs::TokenLemmas::plain_utf8), unfolding(crate::specs::Tokens::unquoted_word))]
fn unquoted_word(alloc: Global, at: usize, text: &[u8]) -> Result<(AnyNode, &[u8]), AnyStop>
    ensures { TokenGives (λ x. (x.0, x.1.now)) result (spec.unquoted_word at text.now) }
{
    let len = run_len(ByteRun::Plain, text);
    if len == 0 {
        return Err(AnyStop::BadName(at));
    }
    let (bytes, rest) = text.split_at(len);
    Ok((AnyNode::Word(text_of(alloc, bytes)?), rest))
}

fn quoted_node(mark: u8, text: TextBuf) -> AnyNode
    ensures { result ≡ spec.quoted_node mark text }
{
    if mark == b'"' {
        AnyNode::Word(text)
    } else {
        AnyNode::Pattern(text)
    }
}

#[tactic(auto, unfolding(crate::specs::Tokens::quoted_value))]
fn quoted(alloc: Global, mark: u8, text: &[u8]) -> Result<(AnyNode, &[u8]), AnyStop>
    ensures { TokenGives (λ x. (x.0, x.1.now)) result (spec.quoted_value mark text.now) }
{
    let inside = tail(text);
    let (bytes, rest) = inside.split_at(run_len(ByteRun::Quoted(mark), inside));
    if !begins_with_byte(mark, rest) {
        return Err(AnyStop::BadQuote(text.len()));
    }
    match str::from_utf8(bytes) {
        Ok(words) => Ok((quoted_node(mark, TextBuf::of(alloc, words)?), tail(rest))),
        Err(_) => Err(AnyStop::BadQuote(text.len())),
    }
}

/// A value that is no group. Where there is none the fault is at the member, which begins where `at` bytes are left.
#[tactic(auto, unfolding(crate::specs::Tokens::ungrouped_value))]
pub fn leaf(alloc: Global, at: usize, text: &[u8]) -> Result<(AnyNode, &[u8]), AnyStop>
    ensures { TokenGives (λ x. (x.0, x.1.now)) result (spec.ungrouped_value at text.now) }
{
    if begins_with_byte(b'"', text) {
        quoted(alloc, b'"', text)
    } else if begins_with_byte(b'\'', text) {
        quoted(alloc, b'\'', text)
    } else {
        unquoted_word(alloc, at, text)
    }
}
