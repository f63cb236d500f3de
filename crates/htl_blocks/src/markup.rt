//! Tags and end tags at the beginning of a text.

ghost use Rattle.std.specs.Prelude.{◌≡◌, IfSome, ◌+◌, ◌<◌, ◌≤◌, ◌∷◌, drop, length, slice_index};
ghost use Rattle.htl_syntax.specs.Tokens as tokens;
ghost use Rattle.htl_blocks.specs.Attributes as attributes;
ghost use Rattle.htl_blocks.specs.Markup as spec;

use crate::byte_run::{ByteRun, is_first, is_letter, run_bytes};
use crate::quoting::{Quoting, begins_statement, ends_tag, step};
use sp_base::begins_with_byte;

#[tactic(auto, unfolding(htl_syntax::specs::Tokens::begins))]
fn letter_at(text: &[u8]) -> bool
    ensures { result ≡ tokens.begins tokens.is_letter text.now }
{
    match text {
        [] => false,
        [c, ..] => is_letter(*c),
    }
}

#[tactic(auto, unfolding(htl_syntax::specs::Tokens::begins))]
pub fn first_at(text: &[u8]) -> bool
    ensures { result ≡ tokens.begins tokens.is_first text.now }
{
    match text {
        [] => false,
        [c, ..] => is_first(*c),
    }
}

/// All but the first byte, which is a character of its own.
pub fn tail(text: &str) -> &str
    requires { slice_index text.now 0 < 128 }
    ensures { result.now ≡ drop 1 text.now }
{
    if text.is_empty() {
        return text;
    }
    text.split_at(1).1
}

/// A text without its first bytes; nothing, where it has no more.
pub fn after(place: usize, text: &[u8]) -> &[u8]
    ensures { result.now ≡ drop place text.now }
{
    if place < text.len() {
        &text[place..]
    } else {
        &text[text.len()..]
    }
}

/// How many bytes at the beginning belong to a name.
fn name_len(text: &[u8]) -> usize
    ensures value { result ≡ spec.tag_name_len text.now }
    ensures within { result ≤ length text.now }
{
    run_bytes(ByteRun::Name, text)
}

/// Whether a tag begins the text.
#[tactic(auto, unfolding(crate::specs::Markup::begins_tag))]
fn begins_tag(text: &[u8]) -> bool
    ensures { result ≡ spec.begins_tag text.now }
{
    begins_with_byte(b'<', text) && letter_at(after(1, text))
}

/// Whether a name and a `>` right after it begin the text.
fn ends_after_name(text: &[u8]) -> bool
    ensures { result ≡ spec.ends_after_name text.now }
{
    letter_at(text) && begins_with_byte(b'>', after(name_len(text), text))
}

/// Whether an end tag begins the text.
#[tactic(auto, unfolding(crate::specs::Markup::begins_end_tag))]
fn begins_end_tag(text: &[u8]) -> bool
    ensures { result ≡ spec.begins_end_tag text.now }
{
    begins_with_byte(b'<', text)
        && (begins_with_byte(b'/', after(1, text)) && ends_after_name(after(2, text)))
}

/// The place of the `>` that ends a tag.
#[tactic(auto, unfolding(crate::specs::Markup::tag_end))]
pub fn tag_end(text: &[u8]) -> Option<usize>
    ensures value { result ≡ spec.tag_end Quoting.Outside 0 text.now }
    ensures within { IfSome result (λ place. place < length text.now) }
{
    let mut quoting = Quoting::Outside;
    let mut len = 0;
    let mut rest = text;
    while let [c, later @ ..] = rest {
        if ends_tag(quoting, *c) {
            return Some(len);
        }
        quoting = step(quoting, *c);
        len += 1;
        rest = later;
    }
    None
}

/// The place of the blank before the first block statement of a tag.
#[tactic(auto, unfolding(crate::specs::Attributes::statement_place))]
pub fn statement_place(text: &[u8]) -> Option<usize>
    ensures value { result ≡ attributes.statement_place Quoting.Outside 0 text.now }
    ensures within { IfSome result (λ place. place < length text.now) }
{
    let mut quoting = Quoting::Outside;
    let mut len = 0;
    let mut rest = text;
    while let [c, later @ ..] = rest {
        if begins_statement(quoting, *c, later) {
            return Some(len);
        }
        quoting = step(quoting, *c);
        len += 1;
        rest = later;
    }
    None
}

/// How many bytes the first part has: a tag, an end tag, or one byte.
#[tactic(auto, unfolding(crate::specs::Markup::part_len, crate::specs::Markup::tag_len))]
pub fn part_len(text: &[u8]) -> usize
    ensures { result ≡ spec.part_len text.now }
{
    if begins_tag(text) {
        match tag_end(text) {
            Some(place) => place + 1,
            None => text.len(),
        }
    } else if begins_end_tag(text) {
        name_len(after(2, text)).saturating_add(3)
    } else {
        1
    }
}

/// The first part of a text, and what follows it.
pub fn first_part(text: &[u8]) -> (&[u8], &[u8])
    requires { 0 < length text.now }
    ensures parts { spec.parts text.now ≡ result.0.now ∷ spec.parts result.1.now }
    ensures lengths { length result.0.now + length result.1.now ≡ length text.now }
    ensures some { 0 < length result.0.now }
{
    text.split_at(part_len(text))
}

fn same_name(a: &[u8], b: &[u8]) -> bool
    ensures { result ≡ spec.same_name a.now b.now }
{
    a.eq_ignore_ascii_case(b)
}

/// The name of a tag.
#[tactic(auto, unfolding(crate::specs::Markup::tag_name))]
pub fn tag_name(tag: &[u8]) -> &[u8]
    ensures { result.now ≡ spec.tag_name tag.now }
{
    let name = after(1, tag);
    name.split_at(name_len(name)).0
}

/// The name of an end tag.
#[tactic(auto, unfolding(crate::specs::Markup::end_tag_name))]
fn end_tag_name(tag: &[u8]) -> &[u8]
    ensures { result.now ≡ spec.end_tag_name tag.now }
{
    let name = after(2, tag);
    name.split_at(name_len(name)).0
}

/// Whether the element of this name never has content.
fn is_void(name: &[u8]) -> bool
    ensures { result ≡ spec.is_void name.now }
{
    same_name(name, b"area")
        || (same_name(name, b"br")
            || (same_name(name, b"hr")
                || (same_name(name, b"img")
                    || (same_name(name, b"input")
                        || (same_name(name, b"link") || same_name(name, b"meta"))))))
}

/// Whether a tag ends in `/>`.
#[tactic(auto, unfolding(crate::specs::Markup::is_self_closed))]
fn is_self_closed(tag: &[u8]) -> bool
    ensures { result ≡ spec.is_self_closed tag.now }
{
    2 <= tag.len() && tag[tag.len() - 2] == b'/'
}

/// Whether the element of a tag has no content.
pub fn has_no_content(tag: &[u8]) -> bool
    ensures { result ≡ spec.has_no_content tag.now }
{
    is_void(tag_name(tag)) || is_self_closed(tag)
}

#[tactic(auto, unfolding(crate::specs::Markup::opens))]
pub fn opens(name: &[u8], part: &[u8]) -> bool
    ensures { result ≡ spec.opens name.now part.now }
{
    begins_tag(part) && (same_name(tag_name(part), name) && !is_self_closed(part))
}

#[tactic(auto, unfolding(crate::specs::Markup::closes))]
pub fn closes(name: &[u8], part: &[u8]) -> bool
    ensures { result ≡ spec.closes name.now part.now }
{
    begins_end_tag(part) && same_name(end_tag_name(part), name)
}

/// Whether a part is a tag with a block statement.
#[tactic(auto, unfolding(crate::specs::Attributes::is_block_tag))]
pub fn is_block_tag(part: &[u8]) -> bool
    ensures { result ≡ attributes.is_block_tag part.now }
{
    begins_tag(part) && statement_place(part).is_some()
}
