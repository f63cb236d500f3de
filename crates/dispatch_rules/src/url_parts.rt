//! The parts of a path text that is cut at its first dot.
ghost use Rattle.std.specs.Prelude.{◌≡◌, ◌∷◌, ◌++◌, ◌-◌, [], IfOk, OnOk, drop, filter, length, option_copied, slice_get, string_bytes, take};
ghost use Rattle.std.specs.List.{before_first, slice_split};
ghost use Rattle.sp_base.specs.Bytes.{is_dot, is_slash, is_full, dotted_text};
ghost use Rattle.dispatch_rules.specs.UrlParts as spec;

use sp_base::Mem;
use std::alloc::Global;

/// What stands before the first dot.
pub fn stem(text: &str) -> &str
    ensures { result.now ≡ spec.stem text.now }
{
    match text.find('.') {
        Some(at) => &text[..at],
        None => text,
    }
}

fn after_dot(text: &str) -> &str
    ensures { result.now ≡ spec.after_dot text.now }
{
    match text.find('.') {
        Some(at) => &text[at + 1..],
        None => "",
    }
}

fn before_slash(text: &str) -> &str
    ensures { result.now ≡ before_first is_slash text.now }
{
    match text.find('/') {
        Some(at) => &text[..at],
        None => text,
    }
}

fn from_slash(text: &str) -> &str
    ensures { result.now ≡ drop (length (before_first is_slash text.now)) text.now }
{
    match text.find('/') {
        Some(at) => &text[at..],
        None => "",
    }
}

fn count(text: &str) -> usize
    ensures { result ≡ length (slice_split is_dot text.now) }
{
    text.split('.').count()
}

fn piece_at(text: &str, n: usize) -> Option<&str>
    ensures { option_copied result ≡ slice_get (slice_split is_dot text.now) n }
{
    text.split('.').nth(n)
}

/// The extension, empty where there is none.
pub fn extension(text: &str) -> &str
    ensures { result.now ≡ spec.extension text.now }
{
    let ending = before_slash(after_dot(text));
    match piece_at(ending, count(ending).saturating_sub(1)) {
        Some(piece) => piece,
        None => "",
    }
}

/// The suffix with the slash before it, empty where there is none.
pub fn suffix(text: &str) -> &str
    ensures { result.now ≡ spec.suffix text.now }
{
    from_slash(after_dot(text))
}

/// The selectors, a dot before each.
pub fn dotted_selectors(alloc: Global, text: &str) -> Mem<String>
    ensures selectors { IfOk result (λ t. drop 1 (string_bytes t) ≡ spec.selectors text.now) }
    ensures dotted { IfOk result (λ t. spec.IsDotted (string_bytes t)) }
{
    let ending = before_slash(after_dot(text));
    full_pieces(alloc, ending, count(ending).saturating_sub(1))
}

// The first pieces that aren't empty, a dot before each.
fn full_pieces(alloc: Global, text: &str, n: usize) -> Mem<String>
    ensures { IfOk result (λ t. string_bytes t ≡ dotted_text (filter is_full (take n (slice_split is_dot text.now)))) }
{
    let mut dotted = String::new(alloc);
    for piece in text.split('.').take(n) {
        add_full(&mut dotted, piece)?;
    }
    Ok(dotted)
}

fn add_full(dotted: &mut String, piece: &str) -> Mem<()>
    ensures { OnOk result (string_bytes dotted.new ≡ string_bytes dotted.old ++ dotted_text (filter is_full (piece.now ∷ []))) }
{
    if !piece.is_empty() {
        dotted.push_str(".")?;
        dotted.push_str(piece)?;
    }
    Ok(())
}
