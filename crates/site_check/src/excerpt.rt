//! Where a byte stands in a text, for a reader.

use crate::shown::push_shown;
use sp_base::Mem;
use std::alloc::Global;

/// The most bytes of a line that are shown before the byte, and from it on.
const SHOWN_BYTES: usize = 72;

/// The place of a byte: its line, and its column in characters, both counted from 1.
#[derive(Clone, Copy, PartialEq, Eq, Drop)]
pub struct TextPlace {
    pub line: usize,
    pub column: usize,
}

// Whether the byte at a place ends a line: a line feed, or a carriage return that no line feed follows.
fn ends_line(text: &[u8], at: usize) -> bool {
    match text.get(at..) {
        Some([b'\n', ..]) => true,
        Some([b'\r', b'\n', ..]) => false,
        Some([b'\r', ..]) => true,
        _ => false,
    }
}

// What stands in a text before a byte.
fn text_before(text: &[u8], at: usize) -> &[u8] {
    &text[..at.min(text.len())]
}

/// The place of a byte of a text.
pub fn place_of(text: &[u8], at: usize) -> TextPlace {
    let before = text_before(text, at);
    let mut line = 1usize;
    let mut column = 1usize;
    for passed in 0..before.len() {
        if ends_line(text, passed) {
            line = line.saturating_add(1);
            column = 1;
        } else if begins_character(before[passed]) {
            column = column.saturating_add(1);
        }
    }
    TextPlace { line, column }
}

fn begins_character(byte: u8) -> bool {
    byte & 0xc0 != 0x80
}

// What stands before a byte in its line, cut to what is shown.
fn line_before(text: &[u8], at: usize) -> &[u8] {
    let before = text_before(text, at);
    for passed in 0..before.len() {
        let from = before.len() - passed;
        if passed == SHOWN_BYTES {
            return whole_characters(&before[from..]);
        }
        if ends_line(text, from - 1) {
            return &before[from..];
        }
    }
    before
}

// Without what is left of a character that was cut.
fn whole_characters(text: &[u8]) -> &[u8] {
    for at in 0..text.len() {
        if begins_character(text[at]) {
            return &text[at..];
        }
    }
    text
}

// What stands from a byte on in its line, cut to what is shown.
fn line_after(text: &[u8]) -> &[u8] {
    for at in 0..text.len() {
        if text[at] == b'\n'
            || text[at] == b'\r'
            || (at >= SHOWN_BYTES && begins_character(text[at]))
        {
            return &text[..at];
        }
    }
    text
}

// As wide as a text: a tab for each tab, and a space for each other character.
fn push_blanks(out: &mut Vec<u8>, text: &[u8]) -> Mem<()> {
    for byte in text {
        if *byte == b'\t' {
            out.push(b'\t')?;
        } else if begins_character(*byte) {
            out.push(b' ')?;
        }
    }
    Ok(())
}

/// Adds the line of a byte, and below it a caret under the byte.
pub fn push_excerpt(out: &mut Vec<u8>, text: &[u8], at: usize) -> Mem<()> {
    let at = at.min(text.len());
    let before = line_before(text, at);
    out.extend_from_slice(b"    ")?;
    push_shown(out, before)?;
    push_shown(out, line_after(&text[at..]))?;
    out.extend_from_slice(b"\n    ")?;
    push_blanks(out, before)?;
    out.extend_from_slice(b"^\n")?;
    Ok(())
}

/// Adds the line and the column of a byte, and a colon.
pub fn push_place(alloc: Global, out: &mut Vec<u8>, text: &[u8], at: usize) -> Mem<()> {
    let place = place_of(text, at);
    out.extend_from_slice(place.line.to_string(alloc)?.as_bytes())?;
    out.push(b':')?;
    out.extend_from_slice(place.column.to_string(alloc)?.as_bytes())?;
    out.extend_from_slice(b": ")?;
    Ok(())
}
