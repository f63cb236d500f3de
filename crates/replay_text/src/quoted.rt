//! Reads quoted texts. A byte has one spelling.
ghost use Rattle.std.specs.Prelude.{◌≡◌, ◌≢◌, ◌<◌, ◌++◌, ℕ, List, IfOk, IfSome, IfNone, get_or, length};
ghost use Rattle.sp_base.specs.Bytes.{AreBytes};
ghost use Rattle.replay_text.specs.Quoting.{unhex, escaped_byte, spelled_byte, BeginsNoByte, IsNoQuotation};
ghost use Rattle.replay_text.specs.Transcript.{quoted_byte, quotation};

use crate::lines::same;
use crate::transcript::hex_digit;
use sp_base::{ByteBuf, Mem};
use std::alloc::Global;

fn digit_value(d: u8) -> u32
    ensures value { result ≡ unhex d }
    ensures small { result < 256 }
{
    if d <= b'9' {
        u32::from(d.saturating_sub(b'0'))
    } else {
        u32::from(d.saturating_sub(b'a' - 10))
    }
}

fn byte_at(text: &[u8], place: usize) -> u8
    ensures { result ≡ get_or text.now place 0 }
{
    text.get(place).copied().unwrap_or(0)
}

// The byte that a letter after a backslash stands for.
#[tactic(auto, unfolding(crate::specs::Quoting::escaped_byte))]
fn named_byte(letter: u8, high: u8, low: u8) -> u32
    ensures { result ≡ escaped_byte letter high low }
{
    match letter {
        b'"' | b'\\' => u32::from(letter),
        b'r' => u32::from(b'\r'),
        b'n' => u32::from(b'\n'),
        b't' => u32::from(b'\t'),
        _ => 16 * digit_value(high) + digit_value(low),
    }
}

// The byte whose spelling begins a text, where one does.
#[tactic(auto, unfolding(crate::specs::Quoting::spelled_byte))]
fn value(text: &[u8]) -> u32
    ensures { result ≡ spelled_byte text.now }
{
    match byte_at(text, 0) {
        b'\\' => named_byte(byte_at(text, 1), byte_at(text, 2), byte_at(text, 3)),
        first => u32::from(first),
    }
}

// The text after the spelling of a byte.
fn after_byte(text: &[u8], b: u8) -> Option<&[u8]>
    ensures some { IfSome result (λ rest. text.now ≡ quoted_byte b ++ rest.now) }
    ensures none { IfNone result ((rest : List ℕ) → text.now ≢ quoted_byte b ++ rest) }
{
    match b {
        b'"' => text.strip_prefix(b"\\\""),
        b'\\' => text.strip_prefix(b"\\\\"),
        b'\r' => text.strip_prefix(b"\\r"),
        b'\n' => text.strip_prefix(b"\\n"),
        b'\t' => text.strip_prefix(b"\\t"),
        b' '..=b'~' => text.strip_prefix(&[b]),
        _ => text.strip_prefix(&[b'\\', b'x', hex_digit(b / 16), hex_digit(b % 16)]),
    }
}

// The byte whose spelling begins a text, and the text after it.
fn first_byte(text: &[u8]) -> Option<(u8, &[u8])>
    ensures some { IfSome result (λ p. text.now ≡ quoted_byte p.0 ++ p.1.now) }
    ensures byte { IfSome result (λ p. p.0 < 256) }
    ensures shorter { IfSome result (λ p. length p.1.now < length text.now) }
    ensures none { IfNone result (BeginsNoByte text.now) }
{
    let value = value(text);
    if value > 255 {
        return None;
    }
    let b = value as u8;
    let Some(rest) = after_byte(text, b) else {
        return None;
    };
    Some((b, rest))
}

// The bytes that a quoted text quotes.
pub fn unquoted(alloc: Global, text: &[u8]) -> Mem<Option<ByteBuf>>
    ensures some { IfOk result (λ o. IfSome o (λ bytes. AreBytes bytes × (text.now ≡ quotation bytes))) }
    ensures none { IfOk result (λ o. IfNone o (IsNoQuotation text.now)) }
{
    let Some(inner) = text.strip_prefix(b"\"") else {
        return Ok(None);
    };
    let mut bytes = Vec::new(alloc);
    let mut rest = inner;
    while let Some((b, after)) = first_byte(rest) {
        bytes.push(b)?;
        rest = after;
    }
    if same(rest, b"\"") {
        Ok(Some(ByteBuf::from(bytes)))
    } else {
        Ok(None)
    }
}
