//! Finds the head with which a stream begins, in its first bytes.
ghost use Rattle.std.specs.Prelude.{◌≡◌, ◌≤◌, ℕ, IfOk, length};
ghost use Rattle.http_front.specs.Turns.{longest_head, window};
ghost use Rattle.http_front.specs.StreamBeginnings.{IsWindowStart, IsStart, HoldsSomeHead, most_spans};
ghost use Rattle.http_front.specs.Heads.{AreWithin};

use crate::fault::InFault;
use crate::head::{AskedHead, read_head};
use httparse::spans::{EMPTY_HEADER_SPAN, HeaderSpan, RequestSpans, parse_request};
use httparse::{Error, Status};
use sp_base::{Mem, NoMemory};
use std::alloc::Global;

const LONGEST_HEAD: usize = 16_384;

// No head has more fields: each takes three bytes at least.
const MOST_SPANS: usize = 8_192;

/// What a stream begins with.
#[derive(Drop)]
pub enum StreamStart {
    /// A whole head, and the number of its bytes.
    Whole(AskedHead, usize),
    /// No whole head, and one may still come.
    Partial,
    /// A head that is refused, or bytes that begin none.
    Refused(InFault),
    /// More fields than there were spans for them.
    Crowded,
}

/// Reads the head with which a stream begins. The spans are written over.
pub fn read_front(alloc: Global, stream: &[u8], spans: &mut [HeaderSpan]) -> Mem<StreamStart>
    ensures { IfOk result (IsStart stream.now) }
{
    let window = window(stream);
    match read_whole(alloc, window, spans)? {
        StreamStart::Whole(head, len) => Ok(StreamStart::Whole(head, len)),
        StreamStart::Partial if window.len() == LONGEST_HEAD => {
            Ok(StreamStart::Refused(InFault::LongHead))
        }
        StreamStart::Partial => Ok(StreamStart::Partial),
        StreamStart::Refused(fault) => Ok(StreamStart::Refused(fault)),
        // There are spans for as many fields as the window can hold.
        StreamStart::Crowded => Ok(StreamStart::Refused(InFault::BadHead)),
    }
}

fn window(stream: &[u8]) -> &[u8]
    ensures { result.now ≡ window stream.now }
{
    if stream.len() > LONGEST_HEAD {
        &stream[..LONGEST_HEAD]
    } else {
        stream
    }
}

// Most heads have fewer fields than there are spans at hand. Those with more are read again with spans for all.
fn read_whole(alloc: Global, bytes: &[u8], spans: &mut [HeaderSpan]) -> Mem<StreamStart>
    requires { length bytes.now ≤ longest_head }
    ensures { IfOk result (IsWindowStart bytes.now most_spans) }
{
    match read_window(alloc, bytes, spans)? {
        StreamStart::Whole(head, len) => Ok(StreamStart::Whole(head, len)),
        StreamStart::Partial => Ok(StreamStart::Partial),
        StreamStart::Refused(fault) => Ok(StreamStart::Refused(fault)),
        StreamStart::Crowded => {
            let mut all = vec![in alloc; EMPTY_HEADER_SPAN; MOST_SPANS]?;
            read_window(alloc, bytes, all.as_mut_slice())
        }
    }
}

// Reads the head at the beginning of a window. The spans are written over.
fn read_window(alloc: Global, bytes: &[u8], spans: &mut [HeaderSpan]) -> Mem<StreamStart>
    requires { length bytes.now ≤ longest_head }
    ensures { IfOk result (IsWindowStart bytes.now (length spans.old)) }
{
    match parse_request(bytes, spans) {
        Ok(Status::Complete(head)) => whole(alloc, bytes, &spans[..head.headers], &head),
        Ok(Status::Partial) => Ok(StreamStart::Partial),
        Err(Error::TooManyHeaders) => Ok(StreamStart::Crowded),
        Err(_) => Ok(StreamStart::Refused(InFault::BadHead)),
    }
}

fn whole(
    alloc: Global,
    bytes: &[u8],
    fields: &[HeaderSpan],
    spans: &RequestSpans,
) -> Mem<StreamStart>
    requires small { length bytes.now ≤ longest_head }
    requires within { AreWithin spans.now.len fields.now spans.now }
    requires holds { HoldsSomeHead bytes.now fields.now spans.now }
    ensures { (room : ℕ) → IfOk result (IsWindowStart bytes.now room) }
{
    match read_head(alloc, bytes, fields, spans) {
        Ok(head) => Ok(StreamStart::Whole(head, spans.len)),
        Err(InFault::NoMemory) => Err(NoMemory),
        Err(fault) => Ok(StreamStart::Refused(fault)),
    }
}
