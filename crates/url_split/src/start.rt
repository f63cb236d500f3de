//! Where the walk back over the dots of a text begins.
ghost use Rattle.std.specs.Prelude.{◌≡◌, Ok, map, IfOk};
ghost use Rattle.sp_base.specs.Paths.{path_of};
ghost use Rattle.std.specs.List.{slice_split};
ghost use Rattle.sp_base.specs.Bytes.{is_slash};
ghost use Rattle.sp_base.specs.Texts.{Segments};
ghost use Rattle.url_split.specs.Walk.{HasParents, IsBeforeLong, IsBeforeSlash, IsFitEnd, IsReached};

use crate::Known;
use sp_base::{
    LONGEST_SEGMENT, MOST_SEGMENTS, Mem, NoMemory, Path, PathFault, a_path_and_its_text, seg_ok,
    segments_and_their_spelling, the_prefixes_of_a_path,
};
use std::alloc::{AllocError, Global};

// The prefix of a text that has all dots at which a known path may end: its pieces as far as known paths may reach.
pub(crate) fn reached<'a, K: Known>(alloc: Global, known: &K, text: &'a str) -> Mem<&'a str>
    ensures { IfOk result (λ start. IsReached (K.known known.now) text.now start.now) }
{
    a_path_and_its_text();
    let path = with_parents(alloc, text)?;
    let most = known.reach(alloc, &path)?.min(MOST_SEGMENTS) + 1;
    Ok(before_long(before_slash(text, most)))
}

// The path that a text spells; where it spells none, its first pieces as far as they make one.
fn with_parents(alloc: Global, text: &str) -> Mem<Path>
    ensures { IfOk result (HasParents text.now) }
{
    a_path_and_its_text();
    the_prefixes_of_a_path();
    match Path::read_or_none(alloc, text)? {
        Some(path) => Ok(path),
        None => first_pieces(alloc, text),
    }
}

fn first_pieces(alloc: Global, text: &str) -> Mem<Path>
    ensures { IfOk result (HasParents text.now) }
{
    a_path_and_its_text();
    the_prefixes_of_a_path();
    segments_and_their_spelling();
    let Some(rest) = text.strip_prefix('/') else {
        return Ok(Path::root(alloc));
    };
    let pieces = pieces_of(alloc, rest)?;
    let end = fit_end(&pieces);
    if end == 0 {
        return Ok(Path::root(alloc));
    }
    Ok(spelled_path(alloc, &text[..end])?)
}

// The path of a text that spells one.
fn spelled_path(alloc: Global, text: &str) -> Mem<Path>
    requires { (path : Segments) × (path_of text.now ≡ Ok path) }
    ensures { IfOk result (λ path. path_of text.now ≡ Ok path) }
{
    match Path::read(alloc, text) {
        Ok(path) => Ok(path),
        Err(PathFault::NoMemory) => Err(NoMemory),
        Err(_) => unreachable!(),
    }
}

// How many bytes the first of some pieces have, as many as make a path, with a slash before each.
fn fit_end(pieces: &[&str]) -> usize
    ensures { IsFitEnd (map (λ piece. piece.now) pieces.now) result }
{
    let mut many = 0;
    let mut end = 0;
    for piece in pieces {
        if many == MOST_SEGMENTS || !seg_ok(piece) {
            return end;
        }
        many += 1;
        end += 1 + piece.len();
    }
    end
}

fn pieces_of(alloc: Global, text: &str) -> Result<Vec<&str>, AllocError>
    ensures { IfOk result (λ pieces. map (λ piece. piece.now) pieces.items ≡ slice_split is_slash text.now) }
{
    text.split('/').collect(alloc)
}

// A text up to the slash that stands after n others, or all of it where there is none.
fn before_slash(text: &str, n: usize) -> &str
    ensures { IsBeforeSlash n text.now result.now }
{
    let bytes = text.as_bytes();
    let mut passed = 0;
    for at in 0..bytes.len() {
        if bytes[at] == b'/' {
            if passed == n {
                return &text[..at];
            }
            passed += 1;
        }
    }
    text
}

// A text up to the first dot before which a piece has grown too long for a segment, or all of it. No prefix from there on spells a
// path, so a piece of thousands of dots is walked back over its first two hundred alone.
fn before_long(text: &str) -> &str
    ensures { IsBeforeLong text.now result.now }
{
    let bytes = text.as_bytes();
    let mut piece = 0;
    for at in 0..bytes.len() {
        if bytes[at] == b'.' && piece > LONGEST_SEGMENT {
            return &text[..at];
        }
        if bytes[at] == b'/' {
            piece = 0;
        } else {
            piece += 1;
        }
    }
    text
}
