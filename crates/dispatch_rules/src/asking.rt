//! What the publisher is asked.
ghost use Rattle.std.specs.Prelude.{◌≡◌, IfOk, Some, [], codes, if◌then◌else◌};
ghost use Rattle.sp_base.specs.Fields.{field_of};
ghost use Rattle.dispatch_rules.specs.Asking as spec;

use any_config::Farm;
use http_header::CONTENT_TYPE;
use sp_base::{Ask, ByteBuf, Mem, Req, TextBuf};
use std::alloc::Global;
use std::str::from_utf8;

/// What the publisher is asked for a request: at the farm's host, without the query, and with a body for POST alone.
pub fn ask_of(alloc: Global, farm: &Farm, req: &mut Req) -> Mem<Ask>
    ensures ask { IfOk result (λ ask. ask ≡ spec.publisher_ask farm.now req.old) }
    ensures same { req.new ≡ req.old }
{
    let body = posted_body(alloc, req)?;
    ask_with(alloc, farm, req, body)
}

// What is asked with this body.
fn ask_with(alloc: Global, farm: &Farm, req: &Req, body: ByteBuf) -> Mem<Ask>
    ensures { IfOk result (λ ask. ask ≡ record (spec.publisher_ask farm.now req.now) { body = body }) }
{
    let post = req.method() == "POST";
    let kind = if post { media_type(req) } else { "" };
    Ok(Ask {
        method: TextBuf::of(alloc, req.method())?,
        host: farm.ask_host.duplicate(alloc)?,
        port: farm.ask_port,
        path: req.path().duplicate(alloc)?,
        slash: req.slash(),
        kind: TextBuf::of(alloc, kind)?,
        body,
    })
}

// The body of a POST, shared; else none.
fn posted_body(alloc: Global, req: &mut Req) -> Mem<ByteBuf>
    ensures body { IfOk result (λ body. body ≡ (if spec.is_post_request req.old then req.old.body else [])) }
    ensures same { req.new ≡ req.old }
{
    if req.method() == "POST" {
        req.share_body(alloc)
    } else {
        Ok(ByteBuf::from(Vec::new(alloc)))
    }
}

// The value of the first Content-Type field, where it is UTF-8.
fn media_type(req: &Req) -> &str
    ensures { result.now ≡ spec.text_or_none (field_of req.now.heads (codes "content-type")) }
{
    match req.field(&CONTENT_TYPE) {
        Some(value) => text_or_none(value),
        None => "",
    }
}

fn text_or_none(value: &[u8]) -> &str
    ensures { result.now ≡ spec.text_or_none (Some value.now) }
{
    match from_utf8(value) {
        Ok(text) => text,
        Err(_) => "",
    }
}
