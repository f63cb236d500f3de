// The segments of a path: which texts are one, and what a text of segments spells.
ghost use Rattle.std.specs.Prelude.{◌+◌, ◌-◌, ◌≤◌, ◌≡◌, ◌≢◌, ◌==◌, ◌∷◌, ◌++◌, List, ℕ, true, false, drop, take, length, IfOk, OnOk, IfSome, IfNone, option_copied, slice_get, string_bytes};
ghost use Rattle.std.specs.List.{list_any, position, position_from, count_by};
ghost use Rattle.sp_base.specs.Paths.{most_segments, seg_ok, is_empty, is_dots, is_long, has_slash, pieces, size_fault, fault_of, is_mangled, unmangled_seg, unmangled_segs, mangled_seg, mangled_segs};
ghost use Rattle.sp_base.specs.PathTexts.{segs_in, spelling_of, is_unfit, fault_after, text_under};

use crate::{Mem, PathFault};
use std::alloc::Global;

/// The most bytes of a segment.
pub const LONGEST_SEGMENT: usize = 200;

/// The most segments of a path.
pub const MOST_SEGMENTS: usize = 64;

fn is_dots(seg: &str) -> bool
    ensures { result ≡ is_dots seg.now }
{
    seg == "." || seg == ".."
}

fn has_slash(seg: &str) -> bool
    ensures { result ≡ has_slash seg.now }
{
    seg.as_bytes().iter().any(|b| *b == b'/')
}

/// Whether a name may be a segment of a path: not empty, neither `.` nor `..`, at most `LONGEST_SEGMENT` bytes, and without a slash.
pub fn seg_ok(name: &str) -> bool
    ensures { result ≡ seg_ok name.now }
{
    !name.is_empty() && (!is_dots(name) && (name.len() <= LONGEST_SEGMENT && !has_slash(name)))
}

fn has_empty(text: &str) -> bool
    ensures { result ≡ list_any is_empty (pieces text.now) }
{
    text.split('/').any(|piece| piece.is_empty())
}

fn has_dots(text: &str) -> bool
    ensures { result ≡ list_any is_dots (pieces text.now) }
{
    text.split('/').any(|piece| is_dots(piece))
}

fn first_long(text: &str) -> Option<usize>
    ensures first { result ≡ position is_long (pieces text.now) }
    ensures within { IfSome result (λ place. place ≤ length text.now) }
{
    text.split('/')
        .position(|piece| piece.len() > LONGEST_SEGMENT)
}

// The place of the first long piece of a text, where others stand before them.
fn long_after(before: usize, text: &str) -> Option<usize>
    requires { before ≤ most_segments }
    ensures { result ≡ position_from is_long before (pieces text.now) }
{
    match first_long(text) {
        Some(place) => Some(before + place),
        None => None,
    }
}

fn count(text: &str) -> usize
    ensures { result ≡ length (pieces text.now) }
{
    slashes(text) + 1
}

pub fn size_fault(long: Option<usize>, before: usize, count: usize) -> Option<PathFault>
    requires { before ≤ most_segments }
    ensures { result ≡ size_fault long (before + count) }
{
    match long {
        Some(place) => Some(PathFault::LongSegment(place)),
        None if count > MOST_SEGMENTS - before => Some(PathFault::TooDeep),
        None => None,
    }
}

fn is_unfit(piece: &[u8]) -> bool
    ensures { result ≡ is_unfit piece.now }
{
    piece.is_empty()
        || ((piece == b".".as_slice() || piece == b"..".as_slice())
            || piece.len() > LONGEST_SEGMENT)
}

// Of bytes, since a search for a character goes through the whole text once more.
fn has_unfit(text: &str) -> bool
    ensures { result ≡ list_any is_unfit (pieces text.now) }
{
    text.as_bytes()
        .split(|b| *b == b'/')
        .any(|piece| is_unfit(piece))
}

fn first_fault(before: usize, text: &str) -> Option<PathFault>
    requires { before ≤ most_segments }
    ensures { result ≡ fault_after before (pieces text.now) }
{
    if has_empty(text) {
        Some(PathFault::EmptySegment)
    } else if has_dots(text) {
        Some(PathFault::DotSegment)
    } else {
        size_fault(long_after(before, text), before, count(text))
    }
}

// Why segments of a path and the pieces of a text after them are no path. Most texts have no unfit piece, which one look tells.
pub fn fault_after(before: usize, text: &str) -> Option<PathFault>
    requires { before ≤ most_segments }
    ensures { result ≡ fault_after before (pieces text.now) }
{
    if has_unfit(text) {
        first_fault(before, text)
    } else {
        size_fault(None, before, count(text))
    }
}

pub fn after_slash(text: &str) -> Option<&str>
    ensures some { IfSome result (λ rest. text.now ≡ 47 ∷ rest.now) }
    ensures none { IfNone result ((rest : List ℕ) → text.now ≢ 47 ∷ rest) }
{
    text.strip_prefix('/')
}

pub fn slashes(text: &str) -> usize
    ensures { result ≡ count_by (λ b. b == 47) text.now }
{
    let mut found = 0;
    for b in text.as_bytes() {
        if *b == b'/' {
            found += 1;
        }
    }
    found
}

// The segment after the last slash.
pub fn last_segment(text: &str) -> Option<&str>
    ensures { option_copied result ≡ slice_get (segs_in text.now) (length (segs_in text.now) - 1) }
{
    match text.rfind('/') {
        Some(at) => Some(&text[at + 1..]),
        None => None,
    }
}

pub fn piece_at(text: &str, n: usize) -> Option<&str>
    ensures { option_copied result ≡ slice_get (pieces text.now) n }
{
    text.split('/').nth(n)
}

pub fn glued(alloc: Global, leading: &str, between: &str, back: &str) -> Mem<String>
    ensures { IfOk result (λ t. string_bytes t ≡ leading.now ++ (between.now ++ back.now)) }
{
    let length = leading
        .len()
        .saturating_add(between.len())
        .saturating_add(back.len());
    let mut text = String::with_capacity(alloc, length)?;
    text.push_str(leading)?;
    add_both(&mut text, between, back)?;
    Ok(text)
}

// The first pieces, a slash before each.
pub fn first_pieces(alloc: Global, text: &str, n: usize) -> Mem<String>
    ensures { IfOk result (λ t. string_bytes t ≡ spelling_of (take n (pieces text.now))) }
{
    let mut leading = String::with_capacity(alloc, text.len().saturating_add(1))?;
    for piece in text.split('/').take(n) {
        leading.push_str("/")?;
        leading.push_str(piece)?;
    }
    Ok(leading)
}

// The pieces with their namespace prefixes as they stand in the repository, a slash before each.
pub fn pieces_unmangled(alloc: Global, text: &str) -> Mem<String>
    ensures { IfOk result (λ t. string_bytes t ≡ spelling_of (unmangled_segs (pieces text.now))) }
{
    let mut unmangled = String::with_capacity(alloc, text.len().saturating_add(1))?;
    for piece in text.split('/') {
        unmangled.push_str("/")?;
        add_unmangled(&mut unmangled, piece)?;
    }
    Ok(unmangled)
}

/// A segment as it is spelled in URLs, in two parts: `_jcr_` and `content` for `jcr:content`, and so for the other namespaces; else
/// nothing and the segment.
pub fn mangled_parts(seg: &str) -> (&str, &str)
    ensures { result.0.now ++ result.1.now ≡ mangled_seg seg.now }
{
    if let Some(rest) = after_namespace_mark(seg, "jcr:") {
        ("_jcr_", rest)
    } else if let Some(rest) = after_namespace_mark(seg, "sling:") {
        ("_sling_", rest)
    } else if let Some(rest) = after_namespace_mark(seg, "nt:") {
        ("_nt_", rest)
    } else if let Some(rest) = after_namespace_mark(seg, "cq:") {
        ("_cq_", rest)
    } else {
        ("", seg)
    }
}

// The pieces with their namespace prefixes as they stand in URLs, a slash before each.
pub fn pieces_mangled(alloc: Global, text: &str) -> Mem<String>
    ensures { IfOk result (λ t. string_bytes t ≡ spelling_of (mangled_segs (pieces text.now))) }
{
    let mut spelling = String::with_capacity(alloc, text.len().saturating_add(1))?;
    for piece in text.split('/') {
        spelling.push_str("/")?;
        let (namespace_mark, rest) = mangled_parts(piece);
        add_both(&mut spelling, namespace_mark, rest)?;
    }
    Ok(spelling)
}

// Why the segments of a text are no path.
pub fn fault_in(text: &str) -> Option<PathFault>
    requires { spelling_of (segs_in text.now) ≡ text.now }
    ensures { result ≡ fault_of (segs_in text.now) }
{
    match after_slash(text) {
        Some(rest) => fault_after(0, rest),
        None => None,
    }
}

// What follows a namespace mark such as `_jcr_` or `jcr:`, where something does.
fn after_namespace_mark<'a>(seg: &'a str, namespace_mark: &str) -> Option<&'a str>
    ensures some { IfSome result (λ rest. (is_mangled namespace_mark.now seg.now ≡ true) × (rest.now ≡ drop (length namespace_mark.now) seg.now)) }
    ensures none { IfNone result (is_mangled namespace_mark.now seg.now ≡ false) }
{
    match seg.strip_prefix(namespace_mark) {
        Some(rest) if !rest.is_empty() => Some(rest),
        _ => None,
    }
}

// Adds a segment with its namespace prefix as it stands in the repository.
fn add_unmangled(text: &mut String, seg: &str) -> Mem<()>
    ensures { OnOk result (string_bytes text.new ≡ string_bytes text.old ++ unmangled_seg seg.now) }
{
    if let Some(rest) = after_namespace_mark(seg, "_jcr_") {
        add_both(text, "jcr:", rest)
    } else if let Some(rest) = after_namespace_mark(seg, "_sling_") {
        add_both(text, "sling:", rest)
    } else if let Some(rest) = after_namespace_mark(seg, "_nt_") {
        add_both(text, "nt:", rest)
    } else if let Some(rest) = after_namespace_mark(seg, "_cq_") {
        add_both(text, "cq:", rest)
    } else {
        add_both(text, "", seg)
    }
}

fn add_both(text: &mut String, prefix: &str, rest: &str) -> Mem<()>
    ensures { OnOk result (string_bytes text.new ≡ string_bytes text.old ++ (prefix.now ++ rest.now)) }
{
    text.push_str(prefix)?;
    text.push_str(rest)?;
    Ok(())
}

/// Whether a text begins with another, and with all segments of it: a slash follows, or the end.
pub fn text_under(text: &[u8], other: &[u8]) -> bool
    ensures { result ≡ text_under text.now other.now }
{
    match text.strip_prefix(other) {
        Some(rest) => rest.is_empty() || rest[0] == b'/',
        None => false,
    }
}
