//! The place of an answer among those that a connection owes.
ghost use Rattle.std.specs.Prelude.{◌≡◌, IfOk, IsTrue, false, true};
ghost use Rattle.http_front.specs.Answers.{answer_bytes as bytes_of};
ghost use Rattle.connections.specs.Slots as model;
ghost use Rattle.connections.specs.AnswerQueues.{PlaceStandsFor, ReplyStandsFor, awaits as awaiting, is_final_reply, has_reply as answered, place_bytes};

use crate::awaited::Awaited;
use error_answers::error_answer;
use http_front::{
    Framing, INSUFFICIENT_STORAGE, PreparedAnswer, SentBytes, answer_bytes, fixed_507, interim_100,
};
use sp_base::{Answer, ByteBuf, Mark, Mem, Req};
use std::alloc::Global;

/// What answers a turn. None but an answer needs memory before it is sent.
#[derive(Drop)]
pub enum Reply {
    /// 100 Continue (RFC 9110, section 15.2.1).
    Interim,
    /// The fixed 507 (RFC 4918, section 11.5).
    Fixed,
    /// The answer of an error with this status. It is made when it is sent.
    Own(u16),
    /// What this flight, or the end of this flush, will bring.
    Awaits(Awaited),
    /// An answer, of the publisher or of the cache.
    Says(PreparedAnswer),
}

/// The place of an answer.
#[derive(Drop)]
pub struct AnswerPlace {
    /// Whether the answer is sent without its body.
    pub head_only: bool,
    /// Whether the connection closes after it.
    pub closes: bool,
    pub reply: Reply,
}

impl Reply {
    // Whether it can be sent.
    pub(crate) fn has_reply(&self) -> bool
        ensures { result ≡ answered self.now }
    {
        match self {
            Reply::Awaits(_) => false,
            _ => true,
        }
    }

    pub(crate) fn awaits(&self, what: Awaited) -> bool
        ensures { result ≡ awaiting what self.now }
    {
        match self {
            Reply::Awaits(other) => other.is_same(&what),
            _ => false,
        }
    }

    // Whether it answers a request, and doesn't stand before the request's own answer.
    pub(crate) fn is_final(&self) -> bool
        ensures { result ≡ is_final_reply self.now }
    {
        match self {
            Reply::Interim => false,
            _ => true,
        }
    }
}

fn asks_for_head(request: &Req) -> bool
    ensures { result ≡ model.is_head request.now }
{
    request.method() == "HEAD"
}

impl AnswerPlace {
    /// The place of a request's answer, after which the connection closes where the request asks for it.
    pub fn of_request(request: &Req, reply: Reply) -> AnswerPlace
        ensures { (response : model.Response) → ReplyStandsFor reply response → PlaceStandsFor result (model.request_slot request.now false response) }
    {
        AnswerPlace {
            head_only: asks_for_head(request),
            closes: request.close(),
            reply,
        }
    }

    /// The place of the answer to a request after which the connection closes.
    pub fn of_last_request(request: &Req, reply: Reply) -> AnswerPlace
        ensures { (response : model.Response) → ReplyStandsFor reply response → PlaceStandsFor result (model.request_slot request.now true response) }
    {
        AnswerPlace {
            head_only: asks_for_head(request),
            closes: true,
            reply,
        }
    }

    /// The place of the answer to a stream's fault, the last of its connection.
    pub fn of_fault(reply: Reply) -> AnswerPlace
        ensures { (response : model.Response) → ReplyStandsFor reply response → PlaceStandsFor result (model.fault_slot response) }
    {
        AnswerPlace {
            head_only: false,
            closes: true,
            reply,
        }
    }

    /// The place of 100 Continue.
    pub fn interim() -> AnswerPlace
        ensures { PlaceStandsFor result model.interim_slot }
    {
        AnswerPlace {
            head_only: false,
            closes: false,
            reply: Reply::Interim,
        }
    }

    // Whether the fixed 507 is its own answer, so that it is sent without taking memory.
    pub(crate) fn owns_fixed_507(&self) -> bool
        ensures { result ≡ model.are_fixed_507 (place_bytes self.now) }
    {
        match &self.reply {
            Reply::Fixed => true,
            Reply::Says(answer) => is_sent_as_fixed_507(
                self.head_only,
                self.closes,
                answer.answer(),
            ),
            // An error's answer has a media type, whatever its status is.
            Reply::Own(_) => false,
            Reply::Interim | Reply::Awaits(_) => false,
        }
    }

    fn framing(&self) -> Framing
        ensures head { result.head_only ≡ self.now.head_only }
        ensures close { result.close ≡ self.now.closes }
    {
        Framing {
            head_only: self.head_only,
            close: self.closes,
        }
    }

    // The bytes of its answer: none while it is awaited.
    pub(crate) fn written(self, alloc: Global) -> Mem<SentBytes>
        ensures { IfOk result (λ bytes. bytes ≡ place_bytes self) }
    {
        let framing = self.framing();
        match self.reply {
            Reply::Interim => copied(alloc, interim_100()),
            Reply::Fixed => copied(alloc, fixed_507()),
            Reply::Own(status) => answer_bytes(alloc, framing, error_answer(alloc, status)?),
            Reply::Awaits(_) => copied(alloc, b""),
            Reply::Says(answer) => answer.bytes(alloc, framing),
        }
    }
}

fn copied(alloc: Global, bytes: &[u8]) -> Mem<SentBytes>
    ensures { IfOk result (λ sent. sent ≡ bytes.now) }
{
    Ok(SentBytes::whole(alloc, ByteBuf::of(alloc, bytes)?))
}

// Whether an answer's bytes are those of the fixed 507.
fn is_sent_as_fixed_507(head_only: bool, closes: bool, answer: &Answer) -> bool
    ensures { result ≡ model.are_fixed_507 (bytes_of head_only closes answer.now) }
{
    let fixed = is_fixed_answer(answer);
    if head_only || !closes {
        return false;
    }
    fixed
}

// Whether it is the fixed answer.
fn is_fixed_answer(answer: &Answer) -> bool
    ensures is { IsTrue result → answer.now ≡ model.fixed_answer }
    ensures tells { answer.now ≡ model.fixed_answer → IsTrue result }
{
    let status = answer.status;
    let size = answer.body.bytes().len();
    status == INSUFFICIENT_STORAGE
        && answer.kind.text().is_empty()
        && answer.location.text().is_empty()
        && answer.mark == Mark::Plain
        && size == 0
}
