//! Globs from their texts.
ghost use Rattle.std.specs.Prelude.{◌≡◌, ◌≢◌, ◌≤◌, ◌↔◌, ◌∷◌, ◌++◌, List, IfOk, IfErr, IfSome, MatchOption, Ok, Err, length};
ghost use Rattle.std.specs.Str.{chars, NonePass};
ghost use Rattle.glob_rules.specs.Reading as spec;
ghost use Rattle.glob_rules.specs.Spelling.{SpellsGlob, IsGlobFault};
ghost use Rattle.glob_rules.specs.declared.piece.GlobPiece.{GlobPiece};

use crate::chars::first_char;
use crate::form::form_of;
use crate::piece::{GlobClass, GlobPiece, GlobRange};
use crate::{Glob, GlobFault};
use sp_base::{Items, Mem};
use std::alloc::Global;

impl Glob {
    /// Reads a glob: `*` is any run of characters, `?` any one, `[..]` one of a class, and any other character itself. In a class
    /// stand characters and ranges such as `a-z`; `!` or `^` first in it negates, and the first `]` closes it.
    pub fn read(alloc: Global, text: &str) -> Result<Glob, GlobFault>
        ensures ok { IfOk result (λ g. spec.glob_of text.now ≡ Ok g) }
        ensures err { IfErr result (λ e. e ≢ GlobFault.NoMemory → spec.glob_of text.now ≡ Err e) }
        ensures spelled { IfOk result (λ g. (glob : List GlobPiece) → SpellsGlob (chars text.now) glob ↔ glob ≡ g) }
        ensures fault { IfErr result (λ e. IsGlobFault e (chars text.now)) }
    {
        pieces_of(alloc, text)
    }
}

fn pieces_of(alloc: Global, text: &str) -> Result<Glob, GlobFault>
    ensures ok { IfOk result (λ g. spec.glob_of text.now ≡ Ok g) }
    ensures err { IfErr result (λ e. e ≢ GlobFault.NoMemory → spec.glob_of text.now ≡ Err e) }
{
    let mut pieces = Vec::new(alloc);
    let mut rest = text;
    while let Some((c, later)) = first_char(rest) {
        if c == '[' {
            let Some((inside, after)) = cut_at_close(later) else {
                return Err(GlobFault::OpenClass(text.len() - rest.len()));
            };
            pieces.push(GlobPiece::Class(class_of(alloc, inside)?))?;
            rest = after;
        } else {
            pieces.push(piece_of_char(c))?;
            rest = later;
        }
    }
    let (form, literal) = form_of(alloc, pieces.as_slice())?;
    Ok(Glob {
        pieces,
        form,
        literal,
    })
}

// What a class holds, and the text after the `]` that closes it.
fn cut_at_close(text: &str) -> Option<(&str, &str)>
    ensures first { MatchOption result (NonePass spec.is_close (chars text.now)) (λ p. NonePass spec.is_close (chars p.0.now)) }
    ensures parts { IfSome result (λ p. chars text.now ≡ chars p.0.now ++ (93 ∷ chars p.1.now)) }
    ensures shorter { IfSome result (λ p. length p.1.now ≤ length text.now) }
{
    match text.split_once(']') {
        None => None,
        Some((inside, after)) => Some((inside, after)),
    }
}

fn piece_of_char(c: char) -> GlobPiece
    ensures { result ≡ spec.piece_of_char c }
{
    if c == '*' {
        GlobPiece::Star
    } else if c == '?' {
        GlobPiece::AnyChar
    } else {
        GlobPiece::Literal(c)
    }
}

fn class_of(alloc: Global, inside: &str) -> Mem<GlobClass>
    ensures { IfOk result (λ class. class ≡ spec.class_of (chars inside.now)) }
{
    if let Some((c, rest)) = first_char(inside)
        && (c == '!' || c == '^')
    {
        return Ok(GlobClass {
            negated: true,
            ranges: ranges_of(alloc, rest)?,
        });
    }
    Ok(GlobClass {
        negated: false,
        ranges: ranges_of(alloc, inside)?,
    })
}

fn ranges_of(alloc: Global, inside: &str) -> Mem<Items<GlobRange>>
    ensures { IfOk result (λ ranges. ranges ≡ spec.ranges_of (chars inside.now)) }
{
    let mut ranges = Items::new(alloc);
    let mut rest = inside;
    while let Some((first, later)) = first_char(rest) {
        let (last, after) = range_end(first, later);
        ranges.push(GlobRange { first, last })?;
        rest = after;
    }
    Ok(ranges)
}

// The last character of the range that begins with a character, and the text after it.
fn range_end(first: char, later: &str) -> (char, &str)
    ensures value { spec.ranges_of (first ∷ chars later.now) ≡ spec.glob_range first result.0 ∷ spec.ranges_of (chars result.1.now) }
    ensures shorter { length result.1.now ≤ length later.now }
{
    if let Some(('-', remainder)) = first_char(later)
        && let Some((last, after)) = first_char(remainder)
    {
        return (last, after);
    }
    (first, later)
}
