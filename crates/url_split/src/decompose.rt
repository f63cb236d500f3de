//! The decomposition of a path text (Apache Sling, "URL decomposition").
ghost use Rattle.std.specs.Prelude.{◌≡◌, ◌++◌, map, filter, not, ◌==◌, length, None, IfOk, IfSome, IfNone};
ghost use Rattle.std.specs.List.{slice_split, before_first};
ghost use Rattle.sp_base.specs.Bytes.{is_dot, is_slash};
ghost use Rattle.url_split.specs.Split.{IsSplit, IsLost, split_of, selectors_of, extension_of, suffix_of};
ghost use Rattle.url_split.specs.Walk.{IsReading, IsAfterPath, IsReached};

use crate::Known;
use crate::start::reached;
use sp_base::{Mem, Path, TextBuf, TextList};
use std::alloc::{AllocError, Global};

/// What a URL's path says of the resource and of how it is asked for.
#[derive(Drop)]
pub struct Parts {
    /// The resource path.
    pub path: Path,
    /// The selectors in their order, none of them empty.
    pub selectors: TextList,
    /// The extension, empty where there is none.
    pub extension: TextBuf,
    /// The suffix with the slash before it, empty where there is none.
    pub suffix: TextBuf,
}

/// Takes a decoded path text apart. The resource path is the longest prefix that ends at a dot or at the text's end and names a
/// known path; where no prefix does there is none.
pub fn split<K: Known>(alloc: Global, known: &K, text: &str) -> Mem<Option<Parts>>
    ensures some { IfOk result (λ o. IfSome o (λ parts. IsSplit (K.known known.now) text.now parts)) }
    ensures none { IfOk result (λ o. IfNone o (IsLost (K.known known.now) text.now)) }
    ensures value { IfOk result (λ o. o ≡ split_of (K.known known.now) text.now) }
{
    if let Some(path) = known_path(alloc, known, text)? {
        return Ok(Some(parts_after(alloc, path, "")?));
    }
    let start = reached(alloc, known, text)?;
    split_before(alloc, known, text, start)
}

// The decomposition at the last dot of a prefix that leads to a known path, where no longer prefix does.
fn split_before<K: Known>(alloc: Global, known: &K, text: &str, start: &str) -> Mem<Option<Parts>>
    requires reached { IsReached (K.known known.now) text.now start.now }
    requires unknown { IsReading (K.known known.now) text.now None }
    ensures some { IfOk result (λ o. IfSome o (λ parts. IsSplit (K.known known.now) text.now parts)) }
    ensures none { IfOk result (λ o. IfNone o (IsLost (K.known known.now) text.now)) }
    ensures value { IfOk result (λ o. o ≡ split_of (K.known known.now) text.now) }
{
    let mut prefix = start;
    loop {
        match prefix.rfind('.') {
            Some(at) => prefix = &prefix[..at],
            None => return Ok(None),
        }
        if let Some(path) = known_path(alloc, known, prefix)? {
            return Ok(Some(parts_after(alloc, path, &text[prefix.len()..])?));
        }
    }
}

// The path that a text spells, where it is known.
#[tactic(auto, using(crate::proofs::WalkLemmas::spelled, crate::proofs::WalkLemmas::unspelled))]
fn known_path<K: Known>(alloc: Global, known: &K, text: &str) -> Mem<Option<Path>>
    ensures { IfOk result (λ o. IsReading (K.known known.now) text.now o) }
{
    let Some(path) = Path::read_or_none(alloc, text)? else {
        return Ok(None);
    };
    if known.has(alloc, &path)? {
        Ok(Some(path))
    } else {
        Ok(None)
    }
}

// The parts of what follows the resource path: nothing, or a text that begins with a dot.
fn parts_after(alloc: Global, path: Path, rest: &str) -> Mem<Parts>
    requires { IsAfterPath rest.now }
    ensures path { IfOk result (λ parts. parts.path ≡ path) }
    ensures selectors { IfOk result (λ parts. parts.selectors ≡ selectors_of rest.now) }
    ensures extension { IfOk result (λ parts. parts.extension ≡ extension_of rest.now) }
    ensures suffix { IfOk result (λ parts. parts.suffix ≡ suffix_of rest.now) }
{
    let Some(rest) = rest.strip_prefix('.') else {
        return Ok(Parts {
            path,
            selectors: TextList::new(alloc),
            extension: TextBuf::of(alloc, "")?,
            suffix: TextBuf::of(alloc, "")?,
        });
    };
    let (dotted, suffix) = cut_at_slash(rest);
    let mut pieces = pieces_of(alloc, dotted)?;
    let extension = pieces.pop().unwrap_or("");
    Ok(Parts {
        path,
        selectors: full_pieces(alloc, &pieces)?,
        extension: TextBuf::of(alloc, extension)?,
        suffix: TextBuf::of(alloc, suffix)?,
    })
}

fn cut_at_slash(text: &str) -> (&str, &str)
    ensures prefix { result.0.now ≡ before_first is_slash text.now }
    ensures rest { text.now ≡ result.0.now ++ result.1.now }
{
    match text.find('/') {
        Some(at) => (&text[..at], &text[at..]),
        None => (text, ""),
    }
}

fn pieces_of(alloc: Global, text: &str) -> Result<Vec<&str>, AllocError>
    ensures { IfOk result (λ pieces. map (λ piece. piece.now) pieces.items ≡ slice_split is_dot text.now) }
{
    text.split('.').collect(alloc)
}

fn full_pieces(alloc: Global, pieces: &[&str]) -> Mem<TextList>
    ensures { IfOk result (λ list. list ≡ filter (λ piece. not (length piece == 0)) (map (λ piece. piece.now) pieces.now)) }
{
    let mut full = TextList::new(alloc);
    for piece in pieces {
        if !piece.is_empty() {
            full.push(TextBuf::of(alloc, piece)?)?;
        }
    }
    Ok(full)
}
