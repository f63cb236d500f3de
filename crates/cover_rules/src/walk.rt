//! How far a page's path goes along a handle's, read off their texts.
ghost use Rattle.std.specs.Prelude.{◌≡◌, ◌≢◌, ◌∷◌, ◌++◌, ℕ, List, IfNone, IfSome, false, take};
ghost use Rattle.sp_base.specs.Paths.{has_slash, mangled_segs, mangled_seg};
ghost use Rattle.sp_base.specs.PathTexts.{spelling_of};
ghost use Rattle.cover_rules.specs.Walk.{Lacks, Leaves, LeavesNext, left_text};

use crate::PageKey;
use sp_base::{Path, mangled_parts, segments_and_their_spelling};

/// What is left of a page's path after the segments of a handle.
#[derive(Clone, Copy, Drop)]
pub enum Rest<'a> {
    /// The handle ends in the page's folder: the rest of the folder's text.
    Folder(&'a [u8]),
    /// It goes on into the page's file: the rest of the file's name.
    File(&'a [u8]),
}

/// What is left of a page's path after the first segments of a handle, where it begins with them.
pub fn after<'a>(handle: &Path, n: usize, key: &'a PageKey) -> Option<Rest<'a>>
    ensures some { IfSome result (λ rest. Leaves key.now (spelling_of (mangled_segs (take n handle.now))) rest) }
    ensures none { IfNone result (Lacks key.now (spelling_of (mangled_segs (take n handle.now)))) }
{
    segments_and_their_spelling();
    let mut rest = Rest::Folder(key.folder.spelling().as_bytes());
    let Some(segments) = handle.relative() else {
        return Some(rest);
    };
    for segment in segments.split('/').take(n) {
        match after_segment(rest, segment, key.file.text().as_bytes()) {
            Some(more) => rest = more,
            None => return None,
        }
    }
    Some(rest)
}

fn after_segment<'a>(rest: Rest<'a>, segment: &str, file: &'a [u8]) -> Option<Rest<'a>>
    ensures some { IfSome result (λ more. LeavesNext file.now (47 ∷ mangled_seg segment.now) rest.entry more) }
    ensures none { IfNone result (has_slash segment.now ≡ false → (more : List ℕ) → left_text file.now rest.entry ≢ 47 ∷ mangled_seg segment.now ++ more) }
{
    segments_and_their_spelling();
    match rest {
        Rest::Folder(text) => {
            if text.is_empty() {
                match strip(file, segment) {
                    Some(more) => Some(Rest::File(more)),
                    None => None,
                }
            } else {
                match strip_slash(text, segment) {
                    Some(more) => Some(Rest::Folder(more)),
                    None => None,
                }
            }
        }
        Rest::File(text) => match strip_slash(text, segment) {
            Some(more) => Some(Rest::File(more)),
            None => None,
        },
    }
}

// What follows a slash and a segment's mangled form.
fn strip_slash<'a>(text: &'a [u8], segment: &str) -> Option<&'a [u8]>
    ensures some { IfSome result (λ rest. text.now ≡ 47 ∷ mangled_seg segment.now ++ rest.now) }
    ensures none { IfNone result ((rest : List ℕ) → text.now ≢ 47 ∷ mangled_seg segment.now ++ rest) }
{
    match strip_bytes(text, b"/") {
        Some(rest) => strip(rest, segment),
        None => None,
    }
}

// What follows a segment's mangled form.
fn strip<'a>(text: &'a [u8], segment: &str) -> Option<&'a [u8]>
    ensures some { IfSome result (λ rest. text.now ≡ mangled_seg segment.now ++ rest.now) }
    ensures none { IfNone result ((rest : List ℕ) → text.now ≢ mangled_seg segment.now ++ rest) }
{
    let (mark, more) = mangled_parts(segment);
    match strip_bytes(text, mark.as_bytes()) {
        Some(rest) => strip_bytes(rest, more.as_bytes()),
        None => None,
    }
}

fn strip_bytes<'a>(text: &'a [u8], prefix: &[u8]) -> Option<&'a [u8]>
    ensures some { IfSome result (λ rest. text.now ≡ prefix.now ++ rest.now) }
    ensures none { IfNone result ((rest : List ℕ) → text.now ≢ prefix.now ++ rest) }
{
    text.strip_prefix(prefix)
}
