//! Writes answers as bytes (RFC 9112, sections 4 to 6).
ghost use Rattle.std.specs.Prelude.{◌≡◌, ◌++◌, IfOk, OnOk, flat_map, string_bytes, if◌then◌else◌};
ghost use Rattle.std.specs.Fmt.{decimal};
ghost use Rattle.sp_base.specs.Bytes.{is_printable_ascii};
ghost use Rattle.http_front.specs.Answers as spec;

use crate::sent_bytes::SentBytes;
use error_answers::phrase_of;
use location_field::location_of;
use sp_base::{Answer, ByteBuf, Mark, Mem};
use std::alloc::Global;

// Room for the head of most answers.
const HEAD_ROOM: usize = 256;

/// How an answer is written: its head only, as to HEAD, and with `Connection: close`, where the connection closes after it.
#[derive(Clone, Copy, Drop)]
pub struct Framing {
    pub head_only: bool,
    pub close: bool,
}

/// The bytes of an answer: without its body where only the head is asked for, and with `Connection: close` where the connection
/// closes after it. A byte of the media type that isn't printable is written as a space, one of the location is escaped.
pub fn answer_bytes(alloc: Global, framing: Framing, answer: Answer) -> Mem<SentBytes>
    ensures { IfOk result (λ bytes. bytes ≡ spec.answer_bytes framing.head_only framing.close answer) }
{
    let head = answer_head(alloc, framing, &answer)?;
    Ok(under_head(alloc, framing, head, answer))
}

/// The bytes of an answer's head, up to the empty line and with it. They go before its content, which they tell the length of.
#[tactic(auto, unfolding(crate::specs::Answers::answer_head))]
pub fn answer_head(alloc: Global, framing: Framing, answer: &Answer) -> Mem<ByteBuf>
    ensures { IfOk result (λ head. head ≡ spec.answer_head framing.head_only framing.close answer.now) }
{
    let Framing { head_only, close } = framing;
    let mut head = Vec::with_capacity(alloc, HEAD_ROOM)?;
    push_status_line(alloc, &mut head, answer.status)?;
    push_fields(alloc, &mut head, head_only, close, answer)?;
    push(&mut head, b"\r\n")?;
    Ok(ByteBuf::from(head))
}

// The bytes of an answer whose head is written.
#[tactic(auto, unfolding(crate::specs::Answers::answer_head, crate::specs::Answers::answer_bytes))]
pub(crate) fn under_head(
    alloc: Global,
    framing: Framing,
    head: ByteBuf,
    answer: Answer,
) -> SentBytes
    requires { head ≡ spec.answer_head framing.head_only framing.close answer }
    ensures { result ≡ spec.answer_bytes framing.head_only framing.close answer }
{
    let content = content_of(alloc, framing.head_only, answer);
    SentBytes::of_parts(head, content)
}

/// The answer that needs no memory: 507, after which the connection closes (RFC 4918, section 11.5).
pub fn fixed_507() -> &'static [u8]
    ensures { result.now ≡ spec.fixed_507 }
{
    b"HTTP/1.1 507 Insufficient Storage\r\nContent-Length: 0\r\nConnection: close\r\n\r\n"
}

/// The interim answer to a request whose sender waits with its body (RFC 9110, section 15.2.1).
pub fn interim_100() -> &'static [u8]
    ensures { result.now ≡ spec.interim_100 }
{
    b"HTTP/1.1 100 Continue\r\n\r\n"
}

fn content_of(alloc: Global, head_only: bool, answer: Answer) -> ByteBuf
    ensures { result ≡ spec.answer_content head_only answer }
{
    if head_only || is_without_content(answer.status) {
        ByteBuf::from(Vec::new(alloc))
    } else {
        answer.body
    }
}

fn is_without_content(status: u16) -> bool
    ensures { result ≡ spec.is_without_content status }
{
    status == 204 || status == 304
}

fn push(out: &mut Vec<u8>, bytes: &[u8]) -> Mem<()>
    ensures { OnOk result (out.new.items ≡ out.old.items ++ bytes.now) }
{
    out.extend_from_slice(bytes)?;
    Ok(())
}

fn push_number(alloc: Global, out: &mut Vec<u8>, number: u64) -> Mem<()>
    ensures { OnOk result (out.new.items ≡ out.old.items ++ decimal number) }
{
    let text = number.to_string(alloc)?;
    push(out, text.as_bytes())
}

#[tactic(auto, unfolding(crate::specs::Answers::status_line))]
fn push_status_line(alloc: Global, out: &mut Vec<u8>, status: u16) -> Mem<()>
    ensures { OnOk result (out.new.items ≡ out.old.items ++ spec.status_line status) }
{
    push(out, b"HTTP/1.1 ")?;
    push_number(alloc, out, u64::from(status))?;
    push(out, b" ")?;
    push(out, phrase_of(status).as_bytes())?;
    push(out, b"\r\n")
}

fn push_fields(
    alloc: Global,
    out: &mut Vec<u8>,
    head_only: bool,
    close: bool,
    answer: &Answer,
) -> Mem<()>
    ensures { OnOk result (out.new.items ≡ out.old.items ++ flat_map spec.field_line (spec.fields_of head_only close answer.now)) }
{
    let kind = printable_value(alloc, answer.kind.text())?;
    let location = location_of(alloc, answer.location.text())?;
    let length = content_length(alloc, head_only, answer)?;
    push_unless_empty(out, "Content-Type", kind.as_slice())?;
    push_unless_empty(out, "Location", location.text().as_bytes())?;
    push_unless_empty(out, "Allow", allowed_methods(answer.status).as_bytes())?;
    push_unless_empty(out, "Cache-Control", directive_of(answer.mark).as_bytes())?;
    push_unless_empty(out, "Content-Length", length.as_bytes())?;
    push_unless_empty(out, "Connection", connection(close).as_bytes())?;
    Ok(())
}

fn push_unless_empty(out: &mut Vec<u8>, name: &str, value: &[u8]) -> Mem<()>
    ensures { OnOk result (out.new.items ≡ out.old.items ++ flat_map spec.field_line (spec.unless_empty name.now value.now)) }
{
    if value.is_empty() {
        return Ok(());
    }
    push_field(out, name, value)
}

#[tactic(auto, unfolding(crate::specs::Answers::field_line))]
fn push_field(out: &mut Vec<u8>, name: &str, value: &[u8]) -> Mem<()>
    ensures { OnOk result (out.new.items ≡ out.old.items ++ spec.field_line (name.now, value.now)) }
{
    push(out, name.as_bytes())?;
    push(out, b": ")?;
    push(out, value)?;
    push(out, b"\r\n")
}

#[tactic(auto, unfolding(crate::specs::Answers::printable_value))]
fn printable_value(alloc: Global, text: &str) -> Mem<Vec<u8>>
    ensures { IfOk result (λ value. value.items ≡ spec.printable_value text.now) }
{
    let bytes = text.as_bytes().iter();
    let value = bytes.map(|b| printable_or_space(*b)).collect(alloc)?;
    Ok(value)
}

fn printable_or_space(b: u8) -> u8
    ensures { result ≡ (if is_printable_ascii b then b else 32) }
{
    if b >= b' ' && b <= b'~' { b } else { b' ' }
}

fn allowed_methods(status: u16) -> &'static str
    ensures { result.now ≡ spec.allowed_methods status }
{
    if status == 405 { "GET, HEAD, POST" } else { "" }
}

fn directive_of(mark: Mark) -> &'static str
    ensures { result.now ≡ spec.directive_of mark }
{
    match mark {
        Mark::Plain => "",
        Mark::NoCache => "no-cache",
        Mark::NoStore => "no-store",
        Mark::MustRevalidate => "must-revalidate",
    }
}

fn content_length(alloc: Global, head_only: bool, answer: &Answer) -> Mem<String>
    ensures { IfOk result (λ text. string_bytes text ≡ spec.content_length head_only answer.now) }
{
    let body = answer.body.bytes();
    if is_without_content(answer.status) || (head_only && body.is_empty()) {
        return Ok(String::new(alloc));
    }
    Ok(body.len().to_string(alloc)?)
}

fn connection(close: bool) -> &'static str
    ensures { result.now ≡ spec.connection close }
{
    if close { "close" } else { "" }
}
