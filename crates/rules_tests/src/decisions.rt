//! What a farm says of pages, answers and clients, which the program does not ask yet, and that the publisher isn't handed what a GET brings.
//! Which requests are admitted, and that a POST's form is handed on, is a stored run (examples/runs/farm).
ghost use Rattle.std.specs.Prelude.{All, length};
ghost use Rattle.sp_base.specs.Fields.{IsFieldWithin};

use any_config::{Farm, STANDARD_FARM, farm_of, read_any};
use cover_rules::page_key;
use dispatch_rules::{ask_of, auto_of, key_of, may_flush, storable};
use http_header::{AUTHORIZATION, CONTENT_TYPE, HeaderName};
use sp_base::{
    Answer, ByteBuf, FieldSpan, LentHead, Mark, Mem, NoMemory, Path, PathFault, Req, TextBuf,
};
use std::alloc::Global;

// The members stand in another order than those of the standard farm.
const SITE: &str = r#"/farms { /site {
  /cache {
    /ignoreUrlParams { /0001 { /glob "*" /type "deny" } /0002 { /glob "utm_[a-z]*" /type "allow" } }
    /allowedClients { /0000 { /glob "*" /type "deny" } /0001 { /glob "127.0.0.1" /type "allow" } }
    /invalidate { /0000 { /glob "*" /type "deny" } /0001 { /glob "*.html" /type "allow" } }
    /rules { /0000 { /glob "*" /type "allow" } /0001 { /glob "*.json" /type "deny" } /0002 { /glob "/a*" /type "allow" } }
    /statfileslevel "3"
  }
  /filter { }
  /virtualhosts { "www.example.com" "localhost" }
} }"#;

fn farm(alloc: Global, text: &str) -> Mem<Farm> {
    match read_any(alloc, text.as_bytes()) {
        Ok(top) => farm_of(alloc, &top).or(Err(NoMemory)),
        Err(_) => Err(NoMemory),
    }
}

// A request of this method, path and query that names no host. The values of its fields stand in these bytes.
fn request(alloc: Global, row: &Row, fields: Vec<FieldSpan>, bytes: &[u8]) -> Result<Req, PathFault>
    requires { All (IsFieldWithin (length bytes.now)) fields.items }
{
    let head = LentHead {
        method: row.0,
        target: "",
        minor: 1,
        host: "",
        port: 80,
        slash: false,
        query: Some(row.2.as_bytes()),
        close: false,
    };
    let path = Path::read(alloc, row.1)?;
    Ok(Req::of(alloc, &head, path, bytes, fields)?)
}

// Whether this is the text of the key under which a request's answer may be kept; `-` where there is none.
fn has_key(alloc: Global, farm: &Farm, req: &Req, wanted: &str) -> Mem<bool> {
    match key_of(alloc, farm, req)? {
        Some(key) => Ok(key.text(alloc)?.text() == wanted),
        None => Ok(wanted == "-"),
    }
}

fn gives_key(alloc: Global, farm: &Farm, row: &Row) -> Result<bool, PathFault> {
    let req = request(alloc, row, Vec::new(alloc), b"")?;
    Ok(has_key(alloc, farm, &req, row.3)?)
}

fn give_keys(alloc: Global, farm: &Farm, rows: &[Row]) -> bool {
    for row in rows {
        if !matches!(gives_key(alloc, farm, row), Ok(true)) {
            return false;
        }
    }
    true
}

// A method, a path and a query, and the key of a request of these.
type Row = (&'static str, &'static str, &'static str, &'static str);

const KEYS_OF_SITE: [Row; 12] = [
    ("GET", "/content/en.html", "", "/content/en.html"),
    ("GET", "/a/jcr:content/x.html", "", "/a/_jcr_content/x.html"),
    ("GET", "/content/en.json", "", "-"),
    ("GET", "/a/en.json", "", "/a/en.json"),
    ("GET", "/content/en", "", "-"),
    ("POST", "/content/en.html", "", "-"),
    ("GET", "/content/en.html", "utm_a=1", "/content/en.html"),
    ("GET", "/content/en.html", "utm_1=a", "-"),
    ("GET", "/content/en.html", "utm=1", "-"),
    ("GET", "/content/en.html", "q=1", "-"),
    ("GET", "/content/en.html", "utm_a=1&q", "-"),
    ("GET", "/content/en.html", "u%74m_b", "/content/en.html"),
];

const STANDARD_KEYS: [Row; 6] = [
    ("GET", "/a.json", "utm=1", "/a.json"),
    ("GET", "/en.html", "utm_source=1", "-"),
    ("GET", "/en", "", "-"),
    ("HEAD", "/en.html", "", "-"),
    ("PUT", "/en.html", "", "-"),
    ("GET", "/en.html", "", "/en.html"),
];

// A row whose request has a key.
const KEPT: Row = ("GET", "/en.html", "", "/en.html");

// The request of that row with a field of this name and value.
fn request_with(alloc: Global, name: HeaderName, value: &[u8]) -> Result<Req, PathFault> {
    let mut fields = Vec::new(alloc);
    fields.push(FieldSpan {
        name,
        start: 0,
        end: value.len(),
    })?;
    request(alloc, &KEPT, fields, value)
}

fn keeps_none_that_is_authorized(alloc: Global, farm: &Farm) -> Result<bool, PathFault> {
    let req = request_with(alloc, AUTHORIZATION, b"")?;
    Ok(key_of(alloc, farm, &req)?.is_none())
}

fn key_is_auto(alloc: Global, farm: &Farm, path: &Path) -> Mem<bool> {
    match page_key(alloc, path)? {
        Some(key) => auto_of(alloc, farm, &key),
        None => Err(NoMemory),
    }
}

fn is_auto(alloc: Global, farm: &Farm, path: &str) -> Result<bool, PathFault> {
    let path = Path::read(alloc, path)?;
    Ok(key_is_auto(alloc, farm, &path)?)
}

// Whether an invalidation of another page outdates pages of the extension `html` alone.
fn outdates_html_alone(alloc: Global, farm: &Farm) -> bool {
    matches!(is_auto(alloc, farm, "/content/a.html"), Ok(true))
        && matches!(is_auto(alloc, farm, "/content/a.json"), Ok(false))
        && matches!(is_auto(alloc, farm, "/a.html.txt"), Ok(false))
}

fn flushes_for_this_host_alone(farm: &Farm) -> bool {
    may_flush(farm, "127.0.0.1")
        && !may_flush(farm, "127.0.0.12")
        && !may_flush(farm, "10.0.0.1")
        && !may_flush(farm, "::1")
}

fn asks_for_target_alone(alloc: Global, farm: &Farm, req: &mut Req) -> bool {
    matches!(ask_of(alloc, farm, req), Ok(ask) if ask.kind.text() == "" && ask.body.bytes().len() == 0)
}

// Whether the publisher isn't handed the form that a GET brings.
fn hands_on_no_form(alloc: Global, farm: &Farm) -> Result<bool, PathFault> {
    let req = request_with(alloc, CONTENT_TYPE, b"text/plain")?;
    let mut req = req.with_body(ByteBuf::of(alloc, b"a=b")?);
    Ok(asks_for_target_alone(alloc, farm, &mut req))
}

fn decides(alloc: Global, farm: &Farm, rows: &[Row]) -> bool {
    give_keys(alloc, farm, rows)
        && matches!(keeps_none_that_is_authorized(alloc, farm), Ok(true))
        && matches!(hands_on_no_form(alloc, farm), Ok(true))
        && outdates_html_alone(alloc, farm)
        && flushes_for_this_host_alone(farm)
}

fn farm_decides(alloc: Global, text: &str, level: usize, rows: &[Row]) -> bool {
    match farm(alloc, text) {
        Ok(farm) => farm.level == level && decides(alloc, &farm, rows),
        Err(_) => false,
    }
}

#[test]
fn farms_decide(rt: HostRuntime) {
    assert!(rt; farm_decides(rt.alloc(), SITE, 3, &KEYS_OF_SITE));
    assert!(rt; farm_decides(rt.alloc(), STANDARD_FARM, 0, &STANDARD_KEYS));
}

fn answer(alloc: Global, mark: Mark) -> Answer {
    Answer {
        status: 200,
        kind: TextBuf::from(String::new(alloc)),
        location: TextBuf::from(String::new(alloc)),
        mark,
        body: ByteBuf::from(Vec::new(alloc)),
    }
}

#[test]
fn answers_may_be_kept(rt: HostRuntime) {
    assert!(rt; !storable(&answer(rt.alloc(), Mark::NoStore)));
    assert!(rt; storable(&answer(rt.alloc(), Mark::Plain)));
}
