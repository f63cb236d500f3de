//! Answers of a media type and a body, and those that lead elsewhere.
ghost use Rattle.std.specs.Prelude.{◌≡◌, IfOk};
ghost use Rattle.publisher.specs.Errors.{answer_with_body, redirect};

use location_field::location_of;
use sp_base::{Answer, ByteBuf, Mark, Mem, TextBuf};
use std::alloc::Global;

/// An answer with a media type and a body.
pub(crate) fn answer_of(
    alloc: Global,
    status: u16,
    kind: &str,
    mark: Mark,
    body: ByteBuf,
) -> Mem<Answer>
    ensures { IfOk result (λ a. a ≡ answer_with_body status kind.now mark body) }
{
    Ok(Answer {
        status,
        kind: TextBuf::of(alloc, kind)?,
        location: TextBuf::of(alloc, "")?,
        mark,
        body,
    })
}

/// A redirect to a URI reference, which is escaped.
pub(crate) fn redirect(alloc: Global, status: u16, reference: &str) -> Mem<Answer>
    ensures { IfOk result (λ a. a ≡ redirect status reference.now) }
{
    Ok(Answer {
        status,
        kind: TextBuf::of(alloc, "")?,
        location: location_of(alloc, reference)?,
        mark: Mark::Plain,
        body: ByteBuf::of(alloc, b"")?,
    })
}
