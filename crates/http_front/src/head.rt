//! Reads what a whole request head asks for.
ghost use Rattle.std.specs.Prelude.{◌≡◌, ◌≢◌, ◌≤◌, IfOk, IfErr, IfSome, OnOk, Some, None, All, IsUtf8, length, option_copied, option_map};
ghost use Rattle.httparse.specs.Spans.{IsWithin, span_bytes};
ghost use Rattle.sp_base.specs.Fields.{IsFieldWithin};
ghost use Rattle.http_front.specs.declared.fault.InFault.TheVariants.{NoMemory};
ghost use Rattle.http_front.specs.LentHosts.{lent_host};
ghost use Rattle.http_front.specs.LentHeads.{asked_by, fields_at, request_by};
ghost use Rattle.http_front.specs.Heads as spec;

use crate::fault::InFault;
use crate::fields::{is_closing, is_repeated, named_fields};
use crate::host::{host_of, length_of};
use crate::target::{LentTarget, lent_target};
use http_header::{CONTENT_LENGTH, EXPECT, HOST, TRANSFER_ENCODING};
use http1::text::eq_ignore_case;
use httparse::spans::{HeaderSpan, RequestSpans};
use sp_base::{FieldSpan, LentHead, Mem, Req, field_value};
use std::alloc::Global;
use std::str::from_utf8_unchecked;

const MOST_FIELDS: usize = 100;

const LONGEST_BODY: usize = 8_388_608;

/// What a head asks for.
#[derive(Drop)]
pub struct AskedHead {
    /// The request, without its body.
    pub request: Req,
    pub body_length: usize,
    /// Whether the sender waits for 100 Continue with the body.
    pub awaits_continue: bool,
}

// What a head asks for, where host, target and length can be read.
#[derive(Drop)]
pub(crate) struct LentAsked<'a> {
    host: &'a str,
    port: u16,
    target: LentTarget<'a>,
    body_length: usize,
}

/// What a head asks for that stands at the beginning of these bytes, its parts at these places of them; or the first fault that it has.
pub fn read_head(
    alloc: Global,
    bytes: &[u8],
    spans: &[HeaderSpan],
    at: &RequestSpans,
) -> Result<AskedHead, InFault>
    requires there { at.now.len ≤ length bytes.now }
    requires within { spec.AreWithin at.now.len spans.now at.now }
    requires texts { spec.AreTexts (spec.request_parts_at bytes.now spans.now at.now) }
    requires version { at.now.version ≤ 1 }
    ensures ok { IfOk result (spec.Asks (spec.request_parts_at bytes.now spans.now at.now)) }
    ensures err { IfErr result (λ e. e ≢ NoMemory → spec.head_fault (spec.request_parts_at bytes.now spans.now at.now) ≡ Some e) }
{
    read_bytes(alloc, &bytes[..at.len], spans, at)
}

// The same of a head that is these bytes.
fn read_bytes(
    alloc: Global,
    bytes: &[u8],
    spans: &[HeaderSpan],
    at: &RequestSpans,
) -> Result<AskedHead, InFault>
    requires within { spec.AreWithin (length bytes.now) spans.now at.now }
    requires texts { spec.AreTexts (spec.request_parts_at bytes.now spans.now at.now) }
    requires version { at.now.version ≤ 1 }
    ensures ok { IfOk result (spec.Asks (spec.request_parts_at bytes.now spans.now at.now)) }
    ensures err { IfErr result (λ e. e ≢ NoMemory → spec.head_fault (spec.request_parts_at bytes.now spans.now at.now) ≡ Some e) }
{
    let target = text_of(at.path.of(bytes));
    let fields = named_fields(alloc, bytes, spans)?;
    let asked = match asked_of(alloc, at.version, target, bytes, fields.as_slice()) {
        Ok(asked) => asked,
        Err(fault) => return Err(fault),
    };
    let body_length = asked.body_length;
    let awaits_continue = awaits_continue(at.version, body_length, bytes, fields.as_slice());
    let request = request_of(alloc, bytes, at, asked, fields)?;
    Ok(AskedHead {
        request,
        body_length,
        awaits_continue,
    })
}

fn asked_of<'a>(
    alloc: Global,
    minor: u8,
    target: &'a str,
    bytes: &'a [u8],
    fields: &[FieldSpan],
) -> Result<LentAsked<'a>, InFault>
    requires { All (IsFieldWithin (length bytes.now)) fields.now }
    ensures faultless { OnOk result (spec.first_refusal minor target.now (fields_at bytes.now fields.now) ≡ None) }
    ensures ok { IfOk result (λ asked. spec.asked_of minor target.now (fields_at bytes.now fields.now) ≡ Some (asked_by asked)) }
    ensures err { IfErr result (λ e. e ≢ NoMemory → spec.first_refusal minor target.now (fields_at bytes.now fields.now) ≡ Some e) }
{
    let Some((name, port)) = asked_host(minor, bytes, fields) else {
        return Err(InFault::BadHead);
    };
    if fields.len() > MOST_FIELDS {
        return Err(InFault::ManyHeaders);
    }
    let target = match lent_target(alloc, target) {
        Ok(Some(target)) => target,
        Ok(None) => return Err(InFault::BadTarget),
        Err(_) => return Err(InFault::NoMemory),
    };
    let body_length = match body_length(bytes, fields) {
        Ok(length) => length,
        Err(fault) => return Err(fault),
    };
    Ok(LentAsked {
        host: text_of(name),
        port,
        target,
        body_length,
    })
}

fn request_of(
    alloc: Global,
    bytes: &[u8],
    at: &RequestSpans,
    asked: LentAsked<'_>,
    fields: Vec<FieldSpan>,
) -> Mem<Req>
    requires method { IsWithin (length bytes.now) at.now.method }
    requires path { IsWithin (length bytes.now) at.now.path }
    requires texts { IsUtf8 (span_bytes bytes.now at.now.method) × IsUtf8 (span_bytes bytes.now at.now.path) }
    requires version { at.now.version ≤ 1 }
    requires within { All (IsFieldWithin (length bytes.now)) fields.items }
    ensures { IfOk result (λ request. request ≡ request_by bytes.now at.now asked.entry (fields_at bytes.now fields.items)) }
{
    let LentAsked {
        host,
        port,
        target,
        ..
    } = asked;
    let LentTarget { path, slash, query } = target;
    let head = LentHead {
        method: text_of(at.method.of(bytes)),
        target: text_of(at.path.of(bytes)),
        minor: at.version,
        host,
        port,
        slash,
        query,
        close: is_closing(at.version, bytes, fields.as_slice()),
    };
    Req::of(alloc, &head, path, bytes, fields)
}

fn text_of(bytes: &[u8]) -> &str
    requires { IsUtf8 bytes.now }
    ensures { result.now ≡ bytes.now }
{
    // That they are UTF-8 is required, and so proved at each call.
    unsafe { from_utf8_unchecked(bytes) }
}

fn asked_host<'a>(minor: u8, bytes: &'a [u8], fields: &[FieldSpan]) -> Option<(&'a [u8], u16)>
    requires { All (IsFieldWithin (length bytes.now)) fields.now }
    ensures value { option_map lent_host result ≡ spec.asked_host minor (fields_at bytes.now fields.now) }
    ensures text { IfSome result (λ host. IsUtf8 host.0.now) }
{
    if is_repeated(fields, &HOST) {
        return None;
    }
    host_of(minor, field_value(bytes, fields, &HOST))
}

// The length of the body, or why it isn't read.
#[tactic(auto, unfolding(crate::specs::Heads::length_or_fault))]
fn body_length(bytes: &[u8], fields: &[FieldSpan]) -> Result<usize, InFault>
    requires { All (IsFieldWithin (length bytes.now)) fields.now }
    ensures { result ≡ spec.length_or_fault (fields_at bytes.now fields.now) }
{
    if field_value(bytes, fields, &TRANSFER_ENCODING).is_some() {
        return Err(InFault::NoLength);
    }
    if is_repeated(fields, &CONTENT_LENGTH) {
        return Err(InFault::BadLength);
    }
    match length_of(field_value(bytes, fields, &CONTENT_LENGTH)) {
        None => Err(InFault::BadLength),
        Some(length) if length > LONGEST_BODY => Err(InFault::LongBody),
        Some(length) => Ok(length),
    }
}

// Whether the sender waits for 100 Continue with a body of this length.
fn awaits_continue(minor: u8, content: usize, bytes: &[u8], fields: &[FieldSpan]) -> bool
    requires { All (IsFieldWithin (length bytes.now)) fields.now }
    ensures { result ≡ spec.awaits_continue minor content (fields_at bytes.now fields.now) }
{
    minor == 1 && content > 0 && is_continue(field_value(bytes, fields, &EXPECT))
}

fn is_continue(value: Option<&[u8]>) -> bool
    ensures { result ≡ spec.is_continue (option_copied value.entry) }
{
    match value {
        Some(value) => eq_ignore_case(value, b"100-continue"),
        None => false,
    }
}
