//! Answers as a test writes them.
ghost use Rattle.std.specs.Prelude.{◌≡◌, IfOk};

use sp_base::{Answer, ByteBuf, Mark, Mem, TextBuf};
use std::alloc::Global;

/// An answer.
pub fn answer_of(
    alloc: Global,
    status: u16,
    kind: &str,
    location: &str,
    mark: Mark,
    body: &str,
) -> Mem<Answer>
    ensures status { IfOk result (λ answer. answer.status ≡ status) }
    ensures kind { IfOk result (λ answer. answer.kind ≡ kind.now) }
    ensures mark { IfOk result (λ answer. answer.mark ≡ mark) }
{
    Ok(Answer {
        status,
        kind: TextBuf::of(alloc, kind)?,
        location: TextBuf::of(alloc, location)?,
        mark,
        body: ByteBuf::of(alloc, body.as_bytes())?,
    })
}
