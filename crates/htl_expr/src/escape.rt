//! How a text is written in a context.

ghost use Rattle.std.specs.Prelude.{◌≡◌, ◌≤◌, ◌<◌, string_bytes, flat_map, option_map, is_some, length, drop, slice_index};
ghost use Rattle.htl_expr.specs.Print as spec;
ghost use Rattle.htl_expr.specs.Writing.{Wrote};

use crate::room::{WriteFault, push_within};
use htl_syntax::Context;

/// How texts are written: within how many bytes, and in which context.
#[derive(Clone, Copy)]
pub(crate) struct Writing {
    /// The most bytes that a text may have then.
    pub(crate) most: usize,
    pub(crate) context: Option<Context>,
}

fn reference(c: u8) -> Option<&'static str>
    ensures { option_map (λ text. text.now) result ≡ spec.reference c }
{
    match c {
        b'&' => Some("&amp;"),
        b'<' => Some("&lt;"),
        b'>' => Some("&gt;"),
        b'"' => Some("&#34;"),
        b'\'' => Some("&#39;"),
        _ => None,
    }
}

fn has_reference(c: u8) -> bool
    ensures { result ≡ is_some (spec.reference c) }
{
    c == b'&' || (c == b'<' || (c == b'>' || (c == b'"' || c == b'\'')))
}

/// How many bytes stand before the first that has a reference.
#[tactic(auto, unfolding(crate::specs::Print::reference_place))]
fn reference_place(text: &[u8]) -> usize
    ensures { result ≡ spec.reference_place text.now }
{
    let mut len = 0;
    let mut rest = text;
    while let [c, later @ ..] = rest {
        if has_reference(*c) {
            return len;
        }
        len += 1;
        rest = later;
    }
    len
}

#[tactic(auto, unfolding(crate::specs::Print::first_reference))]
fn first_reference(text: &[u8]) -> Option<&'static str>
    ensures { option_map (λ text. text.now) result ≡ spec.first_reference text.now }
{
    match text {
        [] => None,
        [c, ..] => reference(*c),
    }
}

// All but the first byte, which is a character of its own.
fn tail(text: &str) -> &str
    requires { slice_index text.now 0 < 128 }
    ensures { result.now ≡ drop 1 text.now }
{
    if text.is_empty() {
        return text;
    }
    text.split_at(1).1
}

// Whole runs between the five characters are written, which are bytes of their own.
fn push_runs(text: &mut String, most: usize, plain: &str) -> Result<(), WriteFault>
    requires { length (string_bytes text.old) ≤ most }
    ensures { Wrote most result (string_bytes text.old) (flat_map spec.html_escape plain.now) (string_bytes text.new) }
{
    let mut rest = plain;
    loop {
        let (run, after) = rest.split_at(reference_place(rest.as_bytes()));
        push_within(text, most, run)?;
        let Some(reference) = first_reference(after.as_bytes()) else {
            return Ok(());
        };
        push_within(text, most, reference)?;
        rest = tail(after);
    }
}

// Escapes only lengthen a text, so one that doesn't fit as it stands isn't looked through.
fn push_escaped(text: &mut String, most: usize, plain: &str) -> Result<(), WriteFault>
    requires { length (string_bytes text.old) ≤ most }
    ensures { Wrote most result (string_bytes text.old) (flat_map spec.html_escape plain.now) (string_bytes text.new) }
{
    if plain.len() > most - text.as_str().len() {
        return Err(WriteFault::TooLong);
    }
    push_runs(text, most, plain)
}

/// Writes a text, escaped unless the context is 'unsafe'.
pub(crate) fn push(
    text: &mut String,
    most: usize,
    context: Option<Context>,
    plain: &str,
) -> Result<(), WriteFault>
    requires { length (string_bytes text.old) ≤ most }
    ensures { Wrote most result (string_bytes text.old) (spec.in_context context plain.now) (string_bytes text.new) }
{
    match context {
        Some(Context::Unsafe) => push_within(text, most, plain),
        Some(Context::Text) | None => push_escaped(text, most, plain),
    }
}
