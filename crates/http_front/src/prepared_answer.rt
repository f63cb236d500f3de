//! Answers whose head may be written already.
ghost use Rattle.std.specs.Prelude.{◌≡◌, IfOk, IfSome, false};
ghost use Rattle.http_front.specs.Answers as spec;

use crate::answer::{Framing, answer_head, under_head};
use crate::sent_bytes::SentBytes;
use sp_base::{Answer, ByteBuf, Mem};
use std::alloc::Global;
use std::marker::Model;

/// How an answer is written to most requests: with its body, and on a connection that stays open.
pub const OPEN_GET: Framing = Framing {
    head_only: false,
    close: false,
};

/// An answer, and maybe the bytes of its head as they are sent to a GET after which the connection stays open. Contracts see the answer
/// alone. One answer that is sent often needs its head written once: the bytes are shared, and lent to each that sends them.
#[derive(Drop)]
pub struct PreparedAnswer {
    answer: Answer,
    head: Option<ByteBuf>,
}

impl Model for PreparedAnswer {
    ghost use Rattle.std.specs.Prelude.{◌≡◌, false, IfSome};
    ghost use Rattle.http_front.specs.Answers.{answer_head};
    ghost use Rattle.sp_base.specs.declared.answer.Answer.{Answer};

    ghost Value = { Answer };

    ghost view = { λ p. p.answer };

    ghost invariant = { λ p. IfSome p.head (λ head. head ≡ answer_head false false p.answer) };
}

impl PreparedAnswer {
    /// An answer whose head is written as it is sent.
    pub fn of(answer: Answer) -> PreparedAnswer
        ensures { result ≡ answer }
    {
        PreparedAnswer { answer, head: None }
    }

    /// An answer whose head is written: these bytes, of `answer_head` under `OPEN_GET`.
    pub fn under(head: ByteBuf, answer: Answer) -> PreparedAnswer
        requires { head ≡ spec.answer_head false false answer }
        ensures { result ≡ answer }
    {
        PreparedAnswer {
            answer,
            head: Some(head),
        }
    }

    pub fn answer(&self) -> &Answer
        ensures { result.now ≡ self.now }
    {
        &self.answer
    }

    /// The bytes of the answer. Its head is written only where it isn't there, or where another one is sent: to HEAD, or on a connection
    /// that closes.
    pub fn bytes(self, alloc: Global, framing: Framing) -> Mem<SentBytes>
        ensures { IfOk result (λ bytes. bytes ≡ spec.answer_bytes framing.head_only framing.close self) }
    {
        let PreparedAnswer { answer, head } = self;
        let head = head_to_send(alloc, framing, head, &answer)?;
        Ok(under_head(alloc, framing, head, answer))
    }
}

// The head that is sent: the one that is there, where it is the same.
fn head_to_send(
    alloc: Global,
    framing: Framing,
    head: Option<ByteBuf>,
    answer: &Answer,
) -> Mem<ByteBuf>
    requires { IfSome head (λ head. head ≡ spec.answer_head false false answer.now) }
    ensures { IfOk result (λ head. head ≡ spec.answer_head framing.head_only framing.close answer.now) }
{
    match head {
        Some(head) if !framing.head_only && !framing.close => Ok(head),
        _ => answer_head(alloc, framing, answer),
    }
}
