//! Which requests ask for an invalidation, and for which one.
ghost use Rattle.std.specs.Prelude.{All, OnOk, IfOk, length};
ghost use Rattle.sp_base.specs.Fields.{IsFieldWithin};

use cover_rules::{Action, Invalidation};
use http_header::HeaderName;
use invalidation::{InvFault, is_invalidation, read_invalidation};
use sp_base::{FieldSpan, LentHead, Mem, NoMemory, Path, PathFault, Req};
use std::alloc::Global;

// A request of this method and path, whose fields stand at these places of the bytes.
fn request(
    alloc: Global,
    method: &str,
    path: &str,
    bytes: &[u8],
    fields: Vec<FieldSpan>,
) -> Result<Req, PathFault>
    requires { All (IsFieldWithin (length bytes.now)) fields.items }
{
    let head = LentHead {
        method,
        target: "",
        minor: 1,
        host: "",
        port: 80,
        slash: path.len() > 1,
        query: Some(b"a=b"),
        close: false,
    };
    let path = Path::read(alloc, path)?;
    Ok(Req::of(alloc, &head, path, bytes, fields)?)
}

fn asks(alloc: Global, method: &str, path: &str) -> Result<bool, PathFault> {
    let req = request(alloc, method, path, b"", Vec::new(alloc))?;
    Ok(is_invalidation(&req))
}

// A method and a path, and whether a request of these asks for an invalidation.
const ASKING: [(&str, &str, bool); 8] = [
    ("POST", "/dispatcher/invalidate.cache", true),
    ("GET", "/dispatcher/invalidate.cache", true),
    ("HEAD", "/dispatcher/invalidate.cache", true),
    ("POST", "/dispatcher/invalidate.cache/x", false),
    ("POST", "/dispatcher/invalidate.cache.html", false),
    ("POST", "/Dispatcher/invalidate.cache", false),
    ("POST", "/dispatcher", false),
    ("POST", "/", false),
];

#[test]
fn knows_who_asks(rt: HostRuntime) {
    for (method, path, wanted) in &ASKING {
        let told = asks(rt.alloc(), *method, *path);
        assert!(rt; matches!(told, Ok(asked) if asked == *wanted));
    }
}

// A field's name and value.
type Field = (&'static str, &'static str);

// The values of these fields, one after another.
fn joined(alloc: Global, fields: &[Field]) -> Mem<Vec<u8>> {
    let mut bytes = Vec::new(alloc);
    for (_, value) in fields {
        bytes.extend_from_slice(value.as_bytes())?;
    }
    Ok(bytes)
}

// The field of this name whose value stands at the place, as far as that lies in this number of bytes.
fn placed(alloc: Global, name: &str, start: usize, end: usize, most: usize) -> Mem<FieldSpan>
    ensures { IfOk result (IsFieldWithin most) }
{
    let end = end.min(most);
    match HeaderName::from_bytes(alloc, name.as_bytes()) {
        Ok(name) => Ok(FieldSpan {
            name,
            start: start.min(end),
            end,
        }),
        Err(_) => Err(NoMemory),
    }
}

// The fields, whose values stand one after another in this number of bytes.
fn places(alloc: Global, fields: &[Field], most: usize) -> Mem<Vec<FieldSpan>>
    ensures { IfOk result (λ places. All (IsFieldWithin most) places.items) }
{
    let mut places = Vec::new(alloc);
    let mut start: usize = 0;
    for (name, value) in fields {
        let end = start.saturating_add(value.len());
        places.push(placed(alloc, *name, start, end, most)?)?;
        start = end;
    }
    Ok(places)
}

fn request_with(alloc: Global, fields: &[Field]) -> Result<Req, PathFault> {
    let bytes = joined(alloc, fields)?;
    let places = places(alloc, fields, bytes.len())?;
    request(
        alloc,
        "POST",
        "/dispatcher/invalidate.cache",
        bytes.as_slice(),
        places,
    )
}

// What a request asks for: the action, the handle, and whether the resource alone is meant.
type Wanted = Result<(Action, &'static str, bool), InvFault>;

fn is_wanted(told: &Result<Invalidation, InvFault>, wanted: &Wanted) -> bool {
    match (told, wanted) {
        (Ok(told), Ok((action, handle, only))) => {
            told.action == *action && told.handle.as_text() == *handle && told.only == *only
        }
        (Err(told), Err(wanted)) => *told == *wanted,
        _ => false,
    }
}

fn asks_for(alloc: Global, fields: &[Field], wanted: &Wanted) -> Result<bool, PathFault> {
    let req = request_with(alloc, fields)?;
    Ok(is_wanted(&read_invalidation(alloc, &req), wanted))
}

const ACTIVATE: Field = ("CQ-Action", "Activate");

const HANDLE: Field = ("CQ-Handle", "/content/en");

const RESOURCE_ONLY: Field = ("CQ-Action-Scope", "ResourceOnly");

// The whole of what is meant by the two fields above.
const ACTIVATE_EN: Wanted = Ok((Action::Activate, "/content/en", false));

const NO_HANDLE: Wanted = Err(InvFault::NoHandle);

const BAD_HANDLE: Wanted = Err(InvFault::BadHandle);

const BAD_ACTION: Wanted = Err(InvFault::BadAction);

// The fields of a request, and the invalidation that they name.
const READ: [(&[Field], Wanted); 13] = [
    (&[ACTIVATE, HANDLE], ACTIVATE_EN),
    (
        &[("cq-handle", "/content/big"), ("CQ-ACTION", "Delete")],
        Ok((Action::Delete, "/content/big", false)),
    ),
    (
        &[("CQ-Action", "Deactivate"), HANDLE, RESOURCE_ONLY],
        Ok((Action::Deactivate, "/content/en", true)),
    ),
    (
        &[ACTIVATE, HANDLE, ("CQ-Action-Scope", "resourceonly")],
        ACTIVATE_EN,
    ),
    (
        &[ACTIVATE, HANDLE, ("CQ-Action-Scope", "ResourceOnly ,a")],
        ACTIVATE_EN,
    ),
    (
        &[ACTIVATE, ("CQ-Handle", "/")],
        Ok((Action::Activate, "/", false)),
    ),
    (
        &[ACTIVATE, ("CQ-Handle", "/content/logo.txt")],
        Ok((Action::Activate, "/content/logo.txt", false)),
    ),
    (
        &[ACTIVATE, ("CQ-Handle", "/a/_jcr_content/b%20c")],
        Ok((Action::Activate, "/a/jcr:content/b c", false)),
    ),
    (
        &[ACTIVATE, ("CQ-Handle", "%2Fa%2Fjcr%3acontent")],
        Ok((Action::Activate, "/a/jcr:content", false)),
    ),
    (
        &[ACTIVATE, ("CQ-Handle", "/100%/%4")],
        Ok((Action::Activate, "/100%/%4", false)),
    ),
    (&[HANDLE, ("CQ-Handle", "a"), ACTIVATE], ACTIVATE_EN),
    (&[HANDLE, ACTIVATE, ("CQ-Action", "Delete")], ACTIVATE_EN),
    (
        &[HANDLE, ACTIVATE, ("CQ-Action-Scope", "All"), RESOURCE_ONLY],
        ACTIVATE_EN,
    ),
];

#[test]
fn reads_invalidations(rt: HostRuntime) {
    for (fields, wanted) in &READ {
        assert!(rt; matches!(asks_for(rt.alloc(), *fields, wanted), Ok(true)));
    }
}

// The fields of a request, and their first fault.
const REFUSED: [(&[Field], Wanted); 14] = [
    (&[], NO_HANDLE),
    (&[ACTIVATE, RESOURCE_ONLY], NO_HANDLE),
    (&[("CQ-Action", "Test")], NO_HANDLE),
    (&[ACTIVATE, ("CQ-Handle", "")], BAD_HANDLE),
    (&[ACTIVATE, ("CQ-Handle", "content/en")], BAD_HANDLE),
    (&[ACTIVATE, ("CQ-Handle", "/content/en/")], BAD_HANDLE),
    (&[ACTIVATE, ("CQ-Handle", "/content/../en")], BAD_HANDLE),
    (&[ACTIVATE, ("CQ-Handle", "/content/%FF")], BAD_HANDLE),
    (&[ACTIVATE, ("CQ-Handle", "a"), HANDLE], BAD_HANDLE),
    (&[("CQ-Handle", "a")], BAD_HANDLE),
    (&[HANDLE], BAD_ACTION),
    (&[HANDLE, ("CQ-Action", "Test")], BAD_ACTION),
    (&[HANDLE, ("CQ-Action", "activate")], BAD_ACTION),
    (&[HANDLE, ("CQ-Action", ""), ACTIVATE], BAD_ACTION),
];

#[test]
fn refuses_invalidations(rt: HostRuntime) {
    for (fields, wanted) in &REFUSED {
        assert!(rt; matches!(asks_for(rt.alloc(), *fields, wanted), Ok(true)));
    }
}
