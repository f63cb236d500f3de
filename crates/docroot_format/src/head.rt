//! Heads of pages as they are read.
ghost use Rattle.std.specs.Prelude.{◌≡◌, Some, None, option_map, if◌then◌else◌};
ghost use Rattle.sp_base.specs.MediaTypes as kinds;
ghost use Rattle.docroot_format.specs.Readings as spec;

use crate::readings::{after_word, is_end, number, stamp};
use cover_rules::Stamp;
use sp_base::is_kind;

/// What the head of a page says.
#[derive(Clone, Copy, Drop)]
pub struct PageHead<'a> {
    pub stamp: Stamp,
    /// The length of the body.
    pub size: u64,
    /// The media type of the body.
    pub kind: &'a str,
}

#[tactic(auto, using(crate::proofs::MediaTypes::kind_is_utf8))]
fn text_of(kind: &[u8]) -> Option<&str>
    ensures { option_map (λ k. k.now) result ≡ (if kinds.is_kind kind.now then Some kind.now else None) }
{
    if !is_kind(kind) {
        return None;
    }
    match str::from_utf8(kind) {
        Ok(kind) => Some(kind),
        Err(_) => None,
    }
}

// A media type up to the end of the line.
#[tactic(auto, unfolding(crate::specs::Readings::stored_kind))]
fn kind(text: &[u8]) -> Option<&str>
    ensures { option_map (λ k. k.now) result ≡ spec.stored_kind text.now }
{
    let end = text.len().saturating_sub(1);
    if !is_end(&text[end..]) {
        return None;
    }
    text_of(&text[..end])
}

/// The head that bytes are.
#[tactic(auto, unfolding(crate::specs::Readings::head_of, crate::specs::Readings::body_of))]
pub fn head_in(text: &[u8]) -> Option<PageHead<'_>>
    ensures { option_map (λ h. record { stamp = h.stamp; size = h.size; kind = h.kind.now }) result ≡ spec.head_of text.now }
{
    let rest = after_word(b"page 1 ", text)?;
    let (stamp, rest) = stamp(rest)?;
    let rest = after_word(b" ", rest)?;
    let (size, rest) = number(rest)?;
    let rest = after_word(b" ", rest)?;
    let kind = kind(rest)?;
    Some(PageHead { stamp, size, kind })
}
