//! Plain text, and the place where an expression opens.

ghost use Rattle.std.specs.Prelude.{◌≡◌, ◌<◌, ◌≤◌, ◌||◌, ◌==◌, ℕ, true, IfOk, slice_index, drop, length};
ghost use Rattle.htl_text.specs.Template as spec;

use memchr::memchr;
use sp_base::{Mem, TextBuf, begins_with_byte};
use std::alloc::Global;

/// Whether the text begins with `${`.
#[tactic(auto, unfolding(crate::specs::Template::opens_expression))]
fn opens(text: &[u8]) -> bool
    ensures { result ≡ spec.opens_expression text.now }
{
    match text {
        [] => false,
        [c, rest @ ..] => *c == b'$' && begins_with_byte(b'{', rest),
    }
}

/// Whether the text begins with `\${`.
#[tactic(auto, unfolding(crate::specs::Template::escapes))]
fn escapes(text: &[u8]) -> bool
    ensures { result ≡ spec.escapes text.now }
{
    match text {
        [] => false,
        [c, rest @ ..] => *c == b'\\' && opens(rest),
    }
}

/// All but the first byte, which is a character of its own.
pub fn tail(text: &str) -> &str
    requires { slice_index text.now 0 < 128 }
    ensures { result.now ≡ drop 1 text.now }
{
    if text.is_empty() {
        return text;
    }
    text.split_at(1).1
}

fn from(place: usize, text: &[u8]) -> &[u8]
    requires { place ≤ length text.now }
    ensures { result.now ≡ drop place text.now }
{
    text.split_at(place).1
}

/// How many bytes stand before the next `${`.
fn opening_len(text: &[u8]) -> usize
    ensures { result ≡ spec.opening_len text.now }
{
    let mut rest = text;
    while let Some(len) = memchr(b'$', rest) {
        let prefix = from(len, rest);
        if opens(prefix) {
            return text.len() - prefix.len();
        }
        rest = from(1, prefix);
    }
    text.len()
}

/// How many bytes stand before the next `${` or `\${`.
fn plain_len(text: &[u8]) -> usize
    ensures { result ≡ spec.plain_len text.now }
{
    let len = opening_len(text);
    if 0 < len && escapes(from(len - 1, text)) {
        len - 1
    } else {
        len
    }
}

/// The plain text before the next expression, and the text from there on.
pub fn plain(alloc: Global, text: &str) -> Mem<(TextBuf, &str)>
    ensures pieces { IfOk result (λ d. (all : ℕ) → spec.with_plain d.0 (spec.template_pieces all 0 d.1.now) ≡ spec.template_pieces all 0 text.now) }
    ensures ends { IfOk result (λ d. (length d.1.now == 0) || spec.opens_expression d.1.now ≡ true) }
    ensures less { IfOk result (λ d. length d.1.now ≤ length text.now) }
{
    let mut plain = String::new(alloc);
    let mut rest = text;
    loop {
        let (prefix, remainder) = rest.split_at(plain_len(rest.as_bytes()));
        plain.push_str(prefix)?;
        if !escapes(remainder.as_bytes()) {
            return Ok((TextBuf::from(plain), remainder));
        }
        plain.push_str("${")?;
        rest = tail(tail(tail(remainder)));
    }
}
