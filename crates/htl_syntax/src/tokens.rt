//! Tokens, each read with the blanks after it.

ghost use Rattle.std.specs.Prelude.{◌≡◌, ◌<◌, drop, slice_index, IfOk, Ok, true, false};
ghost use Rattle.std.specs.Str.{IsCharBoundary};
ghost use Rattle.sp_base.specs.Bytes.{begins_with_byte, is_digit};
ghost use Rattle.htl_syntax.specs.Tokens as spec;
ghost use Rattle.htl_syntax.specs.Tokens.{Gives, AreAscii};

use crate::stop::ExprStop;
use sp_base::TextBuf;
use std::alloc::Global;

/// The two kinds of names.
#[derive(Clone, Copy, Drop)]
pub enum NameKind {
    Name,
    Field,
}

pub fn is_blank(c: u8) -> bool
    ensures { result ≡ spec.is_blank c }
{
    c == b' ' || (c == b'\t' || (c == b'\n' || c == b'\r'))
}

pub fn is_digit(c: u8) -> bool
    ensures { result ≡ is_digit c }
{
    c >= b'0' && c <= b'9'
}

pub fn is_letter(c: u8) -> bool
    ensures { result ≡ spec.is_letter c }
{
    (c >= b'A' && c <= b'Z') || (c >= b'a' && c <= b'z')
}

pub fn is_first(c: u8) -> bool
    ensures { result ≡ spec.is_first c }
{
    is_letter(c) || c == b'_'
}

pub fn is_word(c: u8) -> bool
    ensures { result ≡ spec.is_word_byte c }
{
    is_first(c) || is_digit(c)
}

pub fn is_quote(c: u8) -> bool
    ensures { result ≡ spec.is_quote c }
{
    c == b'\'' || c == b'"'
}

/// All but the first byte, which is a character of its own.
pub fn tail(text: &str) -> &str
    requires { slice_index text.now 0 < 128 }
    ensures { result.now ≡ drop 1 text.now }
{
    if text.is_empty() {
        return text;
    }
    text.split_at(1).1
}

#[tactic(auto, unfolding(crate::specs::Tokens::begins))]
fn blank_at(text: &str) -> bool
    ensures { result ≡ spec.begins spec.is_blank text.now }
{
    match text.as_bytes() {
        [] => false,
        [c, ..] => is_blank(*c),
    }
}

#[tactic(auto, unfolding(crate::specs::Tokens::begins))]
pub fn digit_at(text: &str) -> bool
    ensures { result ≡ spec.begins is_digit text.now }
{
    match text.as_bytes() {
        [] => false,
        [c, ..] => is_digit(*c),
    }
}

#[tactic(auto, unfolding(crate::specs::Tokens::begins))]
fn letter_at(text: &[u8]) -> bool
    ensures { result ≡ spec.begins spec.is_letter text.now }
{
    match text {
        [] => false,
        [c, ..] => is_letter(*c),
    }
}

#[tactic(auto, unfolding(crate::specs::Tokens::begins))]
fn word_at(text: &[u8]) -> bool
    ensures { result ≡ spec.begins spec.is_word_byte text.now }
{
    match text {
        [] => false,
        [c, ..] => is_word(*c),
    }
}

#[tactic(auto, unfolding(crate::specs::Tokens::begins))]
pub fn first_at(text: &str) -> bool
    ensures { result ≡ spec.begins spec.is_first text.now }
{
    match text.as_bytes() {
        [] => false,
        [c, ..] => is_first(*c),
    }
}

#[tactic(auto, unfolding(crate::specs::Tokens::begins))]
pub fn quote_at(text: &str) -> bool
    ensures { result ≡ spec.begins spec.is_quote text.now }
{
    match text.as_bytes() {
        [] => false,
        [c, ..] => is_quote(*c),
    }
}

pub fn begins_with_byte(c: u8, text: &str) -> bool
    ensures { result ≡ begins_with_byte c text.now }
{
    sp_base::begins_with_byte(c, text.as_bytes())
}

#[tactic(auto, using(crate::proofs::Scan::blank_prefix, crate::proofs::Scan::blank_more, crate::proofs::Scan::blank_less, crate::proofs::Scan::blank_none))]
pub fn skip(text: &str) -> &str
    ensures { result.now ≡ spec.blanks_skipped text.now }
{
    let mut rest = text;
    while blank_at(rest) {
        rest = tail(rest);
    }
    rest
}

/// What stands after a byte that is there.
pub fn remainder(c: u8, text: &str) -> &str
    requires ascii { c < 128 }
    requires there { begins_with_byte c text.now ≡ true }
    ensures { result.now ≡ spec.blanks_skipped (drop 1 text.now) }
{
    skip(tail(text))
}

#[tactic(auto, unfolding(crate::specs::Tokens::expect))]
pub fn expect(c: u8, text: &str) -> Result<&str, ExprStop>
    requires { c < 128 }
    ensures { Gives (λ r. r.now) result (spec.expect c text.now) }
{
    if begins_with_byte(c, text) {
        Ok(remainder(c, text))
    } else {
        Err(ExprStop::Unexpected(text.len()))
    }
}

/// An operator of two bytes, of which the first is there.
#[tactic(auto, unfolding(crate::specs::Tokens::second))]
pub fn second(c: u8, text: &str) -> Result<&str, ExprStop>
    requires ascii { c < 128 }
    requires first { slice_index text.now 0 < 128 }
    ensures { Gives (λ r. r.now) result (spec.second c text.now) }
{
    expect(c, tail(text))
}

#[tactic(auto, unfolding(crate::specs::Tokens::literal))]
pub fn literal<'a>(word: &[u8], text: &'a str) -> Result<&'a str, ExprStop>
    requires { AreAscii word.now }
    ensures { Gives (λ r. r.now) result (spec.literal word.now text.now) }
{
    let mut rest = text;
    let mut left = word;
    while let [c, later @ ..] = left {
        if !begins_with_byte(*c, rest) {
            return Err(ExprStop::Unexpected(rest.len()));
        }
        rest = tail(rest);
        left = later;
    }
    Ok(rest)
}

#[tactic(auto, unfolding(crate::specs::Tokens::goes_on))]
fn goes_on(kind: NameKind, text: &[u8]) -> bool
    ensures { result ≡ spec.goes_on kind text.now }
{
    match kind {
        NameKind::Name => word_at(text),
        NameKind::Field => match text {
            [] => false,
            [c, rest @ ..] => is_word(*c) || (*c == b':' && letter_at(rest)),
        },
    }
}

#[tactic(auto, using(crate::proofs::Scan::name_prefix, crate::proofs::Scan::run_more, crate::proofs::Scan::run_none, crate::proofs::Scan::name_less))]
fn name_len(kind: NameKind, text: &str) -> usize
    ensures value { result ≡ spec.name_len kind text.now }
    ensures boundary { IsCharBoundary text.now result }
{
    let mut len = 0;
    let mut rest = text;
    while goes_on(kind, rest.as_bytes()) {
        len += 1;
        rest = tail(rest);
    }
    len
}

/// A name or a field's name.
#[tactic(auto, unfolding(crate::specs::Tokens::read_name))]
pub fn name(alloc: Global, kind: NameKind, text: &str) -> Result<(TextBuf, &str), ExprStop>
    ensures { Gives (λ x. (x.0, x.1.now)) result (spec.read_name kind text.now) }
{
    if !first_at(text) {
        return Err(ExprStop::Unexpected(text.len()));
    }
    let (leading, rest) = text.split_at(name_len(kind, text));
    Ok((TextBuf::of(alloc, leading)?, skip(rest)))
}

#[tactic(auto, unfolding(crate::specs::Tokens::unescape))]
fn unescape(c: u8) -> Option<u8>
    ensures { result ≡ spec.unescape c }
{
    if c == b'\\' || is_quote(c) {
        Some(c)
    } else if c == b'n' {
        Some(b'\n')
    } else if c == b't' {
        Some(b'\t')
    } else if c == b'r' {
        Some(b'\r')
    } else {
        None
    }
}

/// The character that a text after a backslash stands for.
#[tactic(auto, unfolding(crate::specs::Tokens::escape))]
fn escape(text: &str) -> Result<(char, &str), ExprStop>
    ensures value { Gives (λ x. (x.0, x.1.now)) result (spec.escape text.now) }
    ensures ascii { IfOk result (λ x. x.0 < 128) }
{
    match text.as_bytes() {
        [] => Err(ExprStop::Unexpected(0)),
        [c, ..] => match unescape(*c) {
            None => Err(ExprStop::Unexpected(text.len())),
            Some(d) => Ok((d as char, tail(text))),
        },
    }
}

/// How many bytes stand before a mark or a backslash.
#[tactic(auto, unfolding(crate::specs::Tokens::plain_quoted_len))]
fn plain_len(mark: u8, text: &[u8]) -> usize
    ensures { result ≡ spec.plain_quoted_len mark text.now }
{
    let mut len = 0;
    let mut rest = text;
    while let [c, later @ ..] = rest {
        if *c == mark || *c == b'\\' {
            return len;
        }
        len += 1;
        rest = later;
    }
    len
}

/// A string after the mark that opens it.
fn string_from(alloc: Global, mark: u8, text: &str) -> Result<(TextBuf, &str), ExprStop>
    requires { mark < 128 }
    ensures { Gives (λ x. (x.0, x.1.now)) result (spec.string_from false mark text.now) }
{
    let mut found = String::new(alloc);
    let mut rest = text;
    loop {
        let (plain, after) = rest.split_at(plain_len(mark, rest.as_bytes()));
        found.push_str(plain)?;
        if begins_with_byte(mark, after) {
            return Ok((TextBuf::from(found), remainder(mark, after)));
        }
        if !begins_with_byte(b'\\', after) {
            return Err(ExprStop::Unexpected(after.len()));
        }
        let (c, later) = escape(tail(after))?;
        found.push(c)?;
        rest = later;
    }
}

#[tactic(auto, unfolding(crate::specs::Tokens::string))]
pub fn string(alloc: Global, text: &str) -> Result<(TextBuf, &str), ExprStop>
    ensures { Gives (λ x. (x.0, x.1.now)) result (spec.string text.now) }
{
    match text.as_bytes() {
        [] => Err(ExprStop::Unexpected(0)),
        [c, ..] => {
            if is_quote(*c) {
                string_from(alloc, *c, tail(text))
            } else {
                Err(ExprStop::Unexpected(text.len()))
            }
        }
    }
}
