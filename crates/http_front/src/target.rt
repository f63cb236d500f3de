//! Reads the target of a request, in the origin form: a path, and a query after it (RFC 9112, section 3.2.1).
ghost use Rattle.std.specs.Prelude.{◌≡◌, IfOk, option_copied, position};
ghost use Rattle.std.specs.List.{before_first, list_any};
ghost use Rattle.std.specs.Option.{option_map, option_and_then};
ghost use Rattle.percent_encoding.specs.Percent.{percent_decode as decoding};
ghost use Rattle.sp_base.specs.Paths.{path_in, unmangled_segs};
ghost use Rattle.http_front.specs.LentHeads.{target_by};
ghost use Rattle.http_front.specs.PathReading.{is_percent, is_underscore, path_and_slash};
ghost use Rattle.http_front.specs.Targets.{is_question_mark, query_of, begins_with_slash, ends_in_slash, without_slash as trimmed, utf8_text, target_of};

use percent_encoding::{DecodeError, percent_decode};
use sp_base::{ByteBuf, Mem, NoMemory, Path};
use std::alloc::Global;

/// What a target says.
#[derive(Drop)]
pub struct Target {
    /// The path, decoded and unmangled.
    pub path: Path,
    /// Whether a slash at the path's end was dropped.
    pub slash: bool,
    /// The query as it came, where there is one.
    pub query: Option<ByteBuf>,
}

// The same, with the query lent.
#[derive(Drop)]
pub(crate) struct LentTarget<'a> {
    pub path: Path,
    pub slash: bool,
    pub query: Option<&'a [u8]>,
}

/// Reads a target. None is a bad one: it doesn't begin with a slash, or its decoded path isn't UTF-8 or spells no path.
pub fn read_target(alloc: Global, target: &str) -> Mem<Option<Target>>
    ensures { IfOk result (λ o. o ≡ target_of target.now) }
{
    match lent_target(alloc, target) {
        Ok(Some(lent)) => Ok(Some(owned(alloc, lent)?)),
        Ok(None) => Ok(None),
        Err(_) => Err(NoMemory),
    }
}

fn owned(alloc: Global, lent: LentTarget<'_>) -> Mem<Target>
    ensures { IfOk result (λ target. target ≡ target_by lent.entry) }
{
    let LentTarget { path, slash, query } = lent;
    let query = copied(alloc, query)?;
    Ok(Target { path, slash, query })
}

/// Reads a target, and lends its query.
pub fn lent_target(alloc: Global, target: &str) -> Mem<Option<LentTarget<'_>>>
    ensures { IfOk result (λ o. option_map target_by o ≡ target_of target.now) }
{
    if !begins_with_slash(target) {
        return Ok(None);
    }
    let (path, query) = cut(target);
    let read = read_path(alloc, path)?;
    match read {
        Some((path, slash)) => Ok(Some(LentTarget { path, slash, query })),
        None => Ok(None),
    }
}

// An escape isn't a slash here: the target is looked at as it came.
fn begins_with_slash(target: &str) -> bool
    ensures { result ≡ begins_with_slash target.now }
{
    match target.as_bytes() {
        [first, ..] => *first == b'/',
        [] => false,
    }
}

// The path of a target as it came, and the query.
fn cut(target: &str) -> (&str, Option<&[u8]>)
    ensures path { result.0.now ≡ before_first is_question_mark target.now }
    ensures query { option_copied result.1 ≡ query_of target.now }
{
    match query_start(target) {
        Some(at) => (&target[..at], Some(&target.as_bytes()[at + 1..])),
        None => (target, None),
    }
}

fn query_start(target: &str) -> Option<usize>
    ensures { result ≡ position is_question_mark target.now }
{
    target.as_bytes().iter().position(|b| *b == b'?')
}

// The path that a text stands for, each escape in it as the byte of its digits, and whether a slash at its end was dropped. Most paths
// have no escape.
fn read_path(alloc: Global, path: &str) -> Mem<Option<(Path, bool)>>
    ensures { IfOk result (λ o. o ≡ option_and_then path_and_slash (utf8_text (decoding path.now))) }
{
    if has_percent(path) {
        escaped_path(alloc, path.as_bytes())
    } else {
        path_and_slash(alloc, path)
    }
}

fn has_percent(path: &str) -> bool
    ensures { result ≡ list_any is_percent path.now }
{
    path.as_bytes().iter().any(|b| *b == b'%')
}

fn escaped_path(alloc: Global, path: &[u8]) -> Mem<Option<(Path, bool)>>
    ensures { IfOk result (λ o. o ≡ option_and_then path_and_slash (utf8_text (decoding path.now))) }
{
    match percent_decode(path).decode_utf8(alloc) {
        Ok(text) => path_and_slash(alloc, &text),
        Err(DecodeError::Utf8(_)) => Ok(None),
        Err(DecodeError::OutOfMemory) => Err(NoMemory),
    }
}

// The path that a text spells, and whether a slash at its end was dropped.
fn path_and_slash(alloc: Global, text: &str) -> Mem<Option<(Path, bool)>>
    ensures { IfOk result (λ o. o ≡ path_and_slash text.now) }
{
    let (text, slash) = without_slash(text);
    match unmangled_path(alloc, text)? {
        Some(path) => Ok(Some((path, slash))),
        None => Ok(None),
    }
}

// The text without a slash at its end, and whether there was one. The root keeps its own.
fn without_slash(text: &str) -> (&str, bool)
    ensures text { result.0.now ≡ trimmed text.now }
    ensures slash { result.1 ≡ ends_in_slash text.now }
{
    match text.strip_suffix('/') {
        Some(path) if !path.is_empty() => (path, true),
        _ => (text, false),
    }
}

// The path that a text spells, with its namespace prefixes as they stand in the repository.
fn unmangled_path(alloc: Global, text: &str) -> Mem<Option<Path>>
    ensures { IfOk result (λ o. o ≡ option_map unmangled_segs (path_in text.now)) }
{
    match Path::read_or_none(alloc, text)? {
        Some(path) => Ok(Some(unmangled(alloc, path)?)),
        None => Ok(None),
    }
}

// The path with its namespace prefixes as they stand in the repository. Each mark of mangling begins with an underscore, and most paths
// have none.
fn unmangled(alloc: Global, path: Path) -> Mem<Path>
    ensures { IfOk result (λ p. p ≡ unmangled_segs path) }
{
    if has_underscore(path.spelling()) {
        path.unmangled(alloc)
    } else {
        Ok(path)
    }
}

fn has_underscore(text: &str) -> bool
    ensures { result ≡ list_any is_underscore text.now }
{
    text.as_bytes().iter().any(|b| *b == b'_')
}

fn copied(alloc: Global, query: Option<&[u8]>) -> Mem<Option<ByteBuf>>
    ensures { IfOk result (λ o. o ≡ option_copied query.entry) }
{
    match query {
        Some(bytes) => Ok(Some(ByteBuf::of(alloc, bytes)?)),
        None => Ok(None),
    }
}
