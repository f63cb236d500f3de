//! Header fields with parameters.
ghost use Rattle.std.specs.Prelude.{◌≡◌, ◌<◌, ◌∷◌, IfOk, IfSome, length, option_copied, option_map, false};
ghost use Rattle.std.specs.List.{list_all};
ghost use Rattle.std.specs.Str.{str_eq_ignore_ascii_case};
ghost use Rattle.form_input.specs.Parameters as spec;

use std::alloc::{AllocError, Global};

/// Where a byte of a header field stands.
#[derive(Clone, Copy, Drop)]
pub enum Quoting {
    Outside,
    Inside,
    /// Right after a backslash in quotes.
    Escaped,
}

fn step(quoting: Quoting, b: u8) -> Quoting
    ensures { result ≡ spec.quoting_step quoting b }
{
    match quoting {
        Quoting::Outside => {
            if b == b'"' {
                Quoting::Inside
            } else {
                Quoting::Outside
            }
        }
        Quoting::Inside => {
            if b == b'"' {
                Quoting::Outside
            } else if b == b'\\' {
                Quoting::Escaped
            } else {
                Quoting::Inside
            }
        }
        Quoting::Escaped => Quoting::Inside,
    }
}

fn separates(quoting: Quoting, b: u8) -> bool
    ensures { result ≡ spec.separates quoting b }
{
    match quoting {
        Quoting::Outside => b == b';',
        Quoting::Inside => false,
        Quoting::Escaped => false,
    }
}

fn is_blank(b: u8) -> bool
    ensures { result ≡ spec.is_space_or_tab b }
{
    if b == b' ' { true } else { b == b'\t' }
}

/// Whether a text has blanks alone.
pub fn all_blank(text: &[u8]) -> bool
    ensures { result ≡ list_all spec.is_space_or_tab text.now }
{
    let mut rest = text;
    while let [b, more @ ..] = rest {
        if !is_blank(*b) {
            return false;
        }
        rest = more;
    }
    true
}

#[tactic(auto, unfolding(crate::specs::Parameters::after_blanks))]
fn after_blanks(text: &[u8]) -> &[u8]
    ensures { result.now ≡ spec.after_blanks text.now }
{
    let mut rest = text;
    while let [b, more @ ..] = rest {
        if !is_blank(*b) {
            return rest;
        }
        rest = more;
    }
    rest
}

#[tactic(auto, unfolding(crate::specs::Parameters::before_blanks))]
fn before_blanks(text: &[u8]) -> &[u8]
    ensures { result.now ≡ spec.before_blanks text.now }
{
    let mut rest = text;
    while let [more @ .., b] = rest {
        if !is_blank(*b) {
            return rest;
        }
        rest = more;
    }
    rest
}

// The first piece, and the text after its semicolon where it has one.
fn next_piece(text: &[u8]) -> (&[u8], Option<&[u8]>)
    ensures pieces { spec.parameter_pieces text.now ≡ result.0.now ∷ spec.pieces_left (option_copied result.1) }
    ensures shorter { IfSome result.1 (λ rest. length rest.now < length text.now) }
{
    let mut quoting = Quoting::Outside;
    for (at, b) in text.iter().enumerate() {
        if separates(quoting, *b) {
            return (&text[..at], Some(&text[at + 1..]));
        }
        quoting = step(quoting, *b);
    }
    (text, None)
}

// Whether two texts are alike without regard to case.
fn same_word(text: &[u8], word: &[u8]) -> bool
    ensures { result ≡ str_eq_ignore_ascii_case text.now word.now }
{
    text.eq_ignore_ascii_case(word)
}

/// Whether the type of a field is this one.
pub fn is_type(word: &[u8], text: &[u8]) -> bool
    ensures { result ≡ spec.is_type word.now text.now }
{
    let (first, _) = next_piece(text);
    same_word(before_blanks(after_blanks(first)), word)
}

fn after_separator(separator: u8, text: &[u8]) -> Option<&[u8]>
    ensures { option_copied result ≡ spec.after_separator separator text.now }
{
    match text {
        [b, rest @ ..] => { if *b == separator { Some(rest) } else { None } }
        [] => None,
    }
}

/// What follows a name and a separator at the beginning of a text.
pub fn after_name<'a>(separator: u8, name: &[u8], text: &'a [u8]) -> Option<&'a [u8]>
    ensures { option_copied result ≡ spec.after_name separator name.now text.now }
{
    if name.len() > text.len() {
        return None;
    }
    let (prefix, rest) = text.split_at(name.len());
    if same_word(prefix, name) {
        after_separator(separator, rest)
    } else {
        None
    }
}

// The word before the first closing quote, whatever follows that.
#[tactic(auto, using(crate::proofs::ParameterLemmas::before_word_more, crate::proofs::ParameterLemmas::before_word_none), unfolding(crate::specs::Parameters::word_in_quotes))]
fn unquoted(alloc: Global, text: &[u8]) -> Result<Option<Vec<u8>>, AllocError>
    ensures { IfOk result (λ o. option_map (λ v. v.items) o ≡ spec.word_in_quotes false text.now) }
{
    let mut word = Vec::new(alloc);
    let mut escaped = false;
    let mut rest = text;
    while let [b, more @ ..] = rest {
        rest = more;
        if escaped {
            word.push(*b)?;
            escaped = false;
        } else if *b == b'\\' {
            escaped = true;
        } else if *b == b'"' {
            return Ok(Some(word));
        } else {
            word.push(*b)?;
        }
    }
    Ok(None)
}

fn word_of(alloc: Global, text: &[u8]) -> Result<Option<Vec<u8>>, AllocError>
    ensures { IfOk result (λ o. option_map (λ v. v.items) o ≡ spec.parameter_word text.now) }
{
    match text {
        [b'"', rest @ ..] => unquoted(alloc, rest),
        _ => Ok(Some(Vec::from_slice(alloc, before_blanks(text))?)),
    }
}

/// The word of the first parameter with this name, in lower case; none too where that word has no closing quote.
#[tactic(auto, unfolding(crate::specs::Parameters::parameter_word_in))]
pub fn parameter(alloc: Global, name: &[u8], text: &[u8]) -> Result<Option<Vec<u8>>, AllocError>
    ensures { IfOk result (λ o. option_map (λ v. v.items) o ≡ spec.parameter name.now text.now) }
{
    let mut rest = next_piece(text).1;
    while let Some(pieces) = rest {
        let (piece, later) = next_piece(pieces);
        if let Some(word) = after_name(b'=', name, after_blanks(piece)) {
            return word_of(alloc, word);
        }
        rest = later;
    }
    Ok(None)
}
