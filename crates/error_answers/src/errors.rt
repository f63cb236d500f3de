//! Tells an error.
ghost use Rattle.std.specs.Prelude.{◌≡◌, IfOk};
ghost use Rattle.error_answers.specs.Errors.{phrase_of, error_answer, line_answer};

use http::StatusCode;
use sp_base::{Answer, ByteBuf, Mark, Mem, TextBuf};
use std::alloc::Global;

/// The reason phrase of a status code (RFC 9110, section 15), empty where it has none.
#[tactic(auto, unfolding(crate::specs::Errors::phrase_of))]
pub fn phrase_of(status: u16) -> &'static str
    ensures { result.now ≡ phrase_of status }
{
    if status == 413 {
        return "Content Too Large";
    }
    match StatusCode::from_u16(status) {
        Ok(code) => code.canonical_reason().unwrap_or(""),
        Err(_) => "",
    }
}

/// The answer of an error: its status code, and it with its reason phrase as a line of text.
#[tactic(auto, unfolding(crate::specs::Errors::error_answer))]
pub fn error_answer(alloc: Global, status: u16) -> Mem<Answer>
    ensures { IfOk result (λ a. a ≡ error_answer status) }
{
    let body = format!(in alloc; "{status} {}\n", phrase_of(status))?;
    let body = ByteBuf::from(TextBuf::from(body));
    line_answer(alloc, status, body)
}

// An answer with a line of text.
fn line_answer(alloc: Global, status: u16, body: ByteBuf) -> Mem<Answer>
    ensures { IfOk result (λ a. a ≡ line_answer status body) }
{
    Ok(Answer {
        status,
        kind: TextBuf::of(alloc, "text/plain;charset=utf-8")?,
        location: TextBuf::of(alloc, "")?,
        mark: Mark::Plain,
        body,
    })
}
