//! Writes quoted texts. Bytes that stand for themselves are most of a text, and go as they are, run by run.
ghost use Rattle.std.specs.Prelude.{◌≡◌, ◌+◌, ◌≤◌, ◌<◌, ◌++◌, OnOk, IfOk, flat_map, length, take};
ghost use Rattle.std.specs.Bool.{OnTrue};
ghost use Rattle.replay_text.specs.Quoting.{AreLiteral, is_literal};
ghost use Rattle.replay_text.specs.Transcript.{quoted_byte, quotation};

use crate::transcript::{hex_digit, push};
use http_front::SentParts;
use sp_base::Mem;
use std::simd::prelude::*;

// How many bytes are looked at together.
const LANES: usize = 32;

// A byte as it stands within quotes.
fn push_escaped(out: &mut Vec<u8>, b: u8) -> Mem<()>
    ensures { OnOk result (out.new.items ≡ out.old.items ++ quoted_byte b) }
{
    match b {
        b'"' => push(out, b"\\\""),
        b'\\' => push(out, b"\\\\"),
        b'\r' => push(out, b"\\r"),
        b'\n' => push(out, b"\\n"),
        b'\t' => push(out, b"\\t"),
        b' '..=b'~' => Ok(out.push(b)?),
        _ => push(out, &[b'\\', b'x', hex_digit(b / 16), hex_digit(b % 16)]),
    }
}

// Whether the byte stands for itself.
fn is_literal(b: u8) -> bool
    ensures { result ≡ is_literal b }
{
    b >= b' ' && b <= b'~' && b != b'"' && b != b'\\'
}

// Whether each byte of a block does.
fn is_literal_block(bytes: &[u8], at: usize) -> bool
    requires { at + LANES ≤ length bytes.now }
    ensures { OnTrue result (AreLiteral bytes.now at (at + LANES)) }
{
    let block = u8x32::from_slice(&bytes[at..]);
    let others = block.simd_lt(u8x32::splat(b' '))
        | block.simd_gt(u8x32::splat(b'~'))
        | block.simd_eq(u8x32::splat(b'"'))
        | block.simd_eq(u8x32::splat(b'\\'));
    others.to_bitmask() == 0
}

// How many of the first bytes stand for themselves, as far as whole blocks of them do.
fn literal_blocks(bytes: &[u8]) -> usize
    ensures within { result ≤ length bytes.now }
    ensures literal { AreLiteral bytes.now 0 result }
{
    let mut n = 0;
    while bytes.len() - n >= LANES && is_literal_block(bytes, n) {
        n += LANES;
    }
    n
}

// How many of the first bytes stand for themselves.
fn literal_run(bytes: &[u8]) -> usize
    ensures within { result ≤ length bytes.now }
    ensures literal { flat_map quoted_byte (take result bytes.now) ≡ take result bytes.now }
{
    let mut n = literal_blocks(bytes);
    while n < bytes.len() && is_literal(bytes[n]) {
        n += 1;
    }
    n
}

// Writes the bytes that come first, and gives those that are left.
fn push_front<'a>(out: &mut Vec<u8>, bytes: &'a [u8]) -> Mem<&'a [u8]>
    requires { 0 < length bytes.now }
    ensures written { IfOk result (λ rest. out.new.items ++ flat_map quoted_byte rest.now ≡ out.old.items ++ flat_map quoted_byte bytes.now) }
    ensures shorter { IfOk result (λ rest. length rest.now < length bytes.now) }
{
    let n = literal_run(bytes);
    if n == 0 {
        push_escaped(out, bytes[0])?;
        Ok(&bytes[1..])
    } else {
        push(out, &bytes[..n])?;
        Ok(&bytes[n..])
    }
}

/// Writes a quoted text.
pub fn push_quoted(out: &mut Vec<u8>, bytes: &[u8]) -> Mem<()>
    ensures { OnOk result (out.new.items ≡ out.old.items ++ quotation bytes.now) }
{
    out.reserve(bytes.len().saturating_add(2))?;
    push(out, b"\"")?;
    push_quoted_bytes(out, bytes)?;
    push(out, b"\"")
}

/// Writes one quoted text for two parts of it.
pub fn push_quoted_parts(out: &mut Vec<u8>, parts: SentParts<'_>) -> Mem<()>
    ensures { OnOk result (out.new.items ≡ out.old.items ++ quotation (parts.entry.head.now ++ parts.entry.body.now)) }
{
    push(out, b"\"")?;
    push_quoted_bytes(out, parts.head)?;
    push_quoted_bytes(out, parts.body)?;
    push(out, b"\"")
}

// Writes bytes as they stand between quotes.
fn push_quoted_bytes(out: &mut Vec<u8>, bytes: &[u8]) -> Mem<()>
    ensures { OnOk result (out.new.items ≡ out.old.items ++ flat_map quoted_byte bytes.now) }
{
    let mut rest = bytes;
    while !rest.is_empty() {
        rest = push_front(out, rest)?;
    }
    Ok(())
}
