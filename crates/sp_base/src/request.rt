//! Requests as they were read: a head as one block of bytes, and a body.
ghost use Rattle.std.specs.Prelude.{◌≡◌, ◌≤◌, ◌++◌, IfOk, OnOk, All, IsUtf8, length, map, option_copied, unwrap_or, []};
ghost use Rattle.sp_base.specs.Fields.{IsFieldWithin, field_at, field_of};
ghost use Rattle.sp_base.specs.Requests.{request_of, version_text, with_body};
ghost use Rattle.sp_base.specs.RequestBlocks.{ArePushed};

use crate::field::{FieldSpan, field_value};
use crate::{ByteBuf, Mem, Path};
use http_header::HeaderName;
use std::alloc::Global;
use std::marker::Model;
use std::str::from_utf8_unchecked;

// Room in a request line for what stands round the target.
const VERSION_ROOM: usize = 12;

/// What a head says, lent.
#[derive(Clone, Copy, Drop)]
pub struct LentHead<'a> {
    /// The method (RFC 9110, section 9.1: case counts).
    pub method: &'a str,
    /// The target as it came (RFC 9112, section 3.2).
    pub target: &'a str,
    /// The minor version of HTTP/1.
    pub minor: u8,
    /// The host that is asked, without its port; empty where a request of version 1.0 names none.
    pub host: &'a str,
    pub port: u16,
    /// Whether a slash at the path's end was dropped.
    pub slash: bool,
    /// The target's query as it came, without the question mark.
    pub query: Option<&'a [u8]>,
    /// Whether the connection closes after the answer.
    pub close: bool,
}

// Where the parts of a block end. They stand in this order, one after another: the request line, which begins with the method, the
// host, the query, and then the bytes in which the values of the fields stand.
#[derive(Clone, Copy, Drop)]
struct BlockEnds {
    method: usize,
    line: usize,
    host: usize,
    query: usize,
    has_query: bool,
}

/// A request as a client sent it. Contracts see what it says.
#[derive(Drop)]
pub struct Req {
    block: Vec<u8>,
    ends: BlockEnds,
    fields: Vec<FieldSpan>,
    path: Path,
    body: ByteBuf,
    minor: u8,
    port: u16,
    slash: bool,
    close: bool,
}

impl Model for Req {
    ghost use Rattle.std.specs.Prelude.{map, take, drop};
    ghost use Rattle.sp_base.specs.Fields.{field_at};
    ghost use Rattle.sp_base.specs.Requests.{Request};
    ghost use Rattle.sp_base.specs.RequestBlocks.{host_in_block, query_in, IsLaidOut};

    ghost Value = { Request };

    ghost view = { λ r. record {
      method = take r.ends.method r.block.items;
      line = take r.ends.line r.block.items;
      minor = r.minor;
      host = host_in_block r.block.items r.ends;
      port = r.port;
      path = r.path;
      slash = r.slash;
      query = query_in r.block.items r.ends;
      heads = map (field_at (drop r.ends.query r.block.items)) r.fields.items;
      body = r.body;
      close = r.close;
    } };

    ghost invariant = { λ r. IsLaidOut r.block.items r.ends r.fields.items };
}

impl Req {
    /// The request without a body whose head says this; the values of its fields stand at their places of these bytes.
    pub fn of(
        alloc: Global,
        head: &LentHead<'_>,
        path: Path,
        bytes: &[u8],
        fields: Vec<FieldSpan>,
    ) -> Mem<Req>
        requires version { head.now.minor ≤ 1 }
        requires within { All (IsFieldWithin (length bytes.now)) fields.items }
        ensures { IfOk result (λ request. request ≡ request_of head.now path (map (field_at bytes.now) fields.items)) }
    {
        let room = block_room(head, bytes.len());
        let mut block = Vec::with_capacity(alloc, room)?;
        let ends = push_parts(&mut block, head)?;
        push(&mut block, bytes)?;
        Ok(Req {
            block,
            ends,
            fields,
            path,
            body: ByteBuf::from(Vec::new(alloc)),
            minor: head.minor,
            port: head.port,
            slash: head.slash,
            close: head.close,
        })
    }

    /// The request with this body.
    pub fn with_body(self, body: ByteBuf) -> Req
        ensures { result ≡ with_body self body }
    {
        let mut request = self;
        request.body = body;
        request
    }

    pub fn method(&self) -> &str
        ensures { result.now ≡ self.now.method }
    {
        text_in(&self.block[..self.ends.method])
    }

    /// The request line as it came, without its line end (RFC 9112, section 3).
    pub fn line(&self) -> &str
        ensures { result.now ≡ self.now.line }
    {
        text_in(&self.block[..self.ends.line])
    }

    /// The minor version of HTTP/1.
    pub fn minor(&self) -> u8
        ensures { result ≡ self.now.minor }
    {
        self.minor
    }

    /// The host that is asked, without its port; empty where a request of version 1.0 names none.
    pub fn host(&self) -> &str
        ensures { result.now ≡ self.now.host }
    {
        text_in(&self.block[self.ends.line..self.ends.host])
    }

    pub fn port(&self) -> u16
        ensures { result ≡ self.now.port }
    {
        self.port
    }

    /// The path of the target, decoded and unmangled.
    pub fn path(&self) -> &Path
        ensures { result.now ≡ self.now.path }
    {
        &self.path
    }

    /// Whether a slash at the path's end was dropped.
    pub fn slash(&self) -> bool
        ensures { result ≡ self.now.slash }
    {
        self.slash
    }

    /// The target's query as it came, without the question mark.
    pub fn query(&self) -> Option<&[u8]>
        ensures { option_copied result ≡ self.now.query }
    {
        if self.ends.has_query {
            Some(&self.block[self.ends.host..self.ends.query])
        } else {
            None
        }
    }

    /// The value of the first field of a name.
    pub fn field(&self, name: &HeaderName) -> Option<&[u8]>
        ensures { option_copied result ≡ field_of self.now.heads name.now }
    {
        field_value(&self.block[self.ends.query..], self.fields.as_slice(), name)
    }

    pub fn body(&self) -> &[u8]
        ensures { result.now ≡ self.now.body }
    {
        self.body.bytes()
    }

    /// The body once more, without a copy. The first share takes memory, but not for the bytes.
    pub fn share_body(&mut self, alloc: Global) -> Mem<ByteBuf>
        ensures ok { IfOk result (λ body. body ≡ self.old.body) }
        ensures same { self.new ≡ self.old }
    {
        self.body.share(alloc)
    }

    /// Whether the connection closes after the answer.
    pub fn close(&self) -> bool
        ensures { result ≡ self.now.close }
    {
        self.close
    }
}

fn text_in(bytes: &[u8]) -> &str
    requires { IsUtf8 bytes.now }
    ensures { result.now ≡ bytes.now }
{
    // That they are UTF-8 is required, and so proved at each call.
    unsafe { from_utf8_unchecked(bytes) }
}

// As many bytes as a block holds, where the fields stand in this number of bytes.
fn block_room(head: &LentHead<'_>, fields: usize) -> usize {
    head.method
        .len()
        .saturating_add(head.target.len())
        .saturating_add(VERSION_ROOM)
        .saturating_add(head.host.len())
        .saturating_add(query_bytes(head).len())
        .saturating_add(fields)
}

// Writes the parts that stand before the fields.
fn push_parts(block: &mut Vec<u8>, head: &LentHead<'_>) -> Mem<BlockEnds>
    requires version { head.now.minor ≤ 1 }
    requires empty { block.old.items ≡ [] }
    ensures { IfOk result (λ ends. ArePushed block.new.items ends head.now) }
{
    push(block, head.method.as_bytes())?;
    push(block, b" ")?;
    push(block, head.target.as_bytes())?;
    push(block, version_of(head.minor).as_bytes())?;
    let line = block.len();
    push(block, head.host.as_bytes())?;
    let host = block.len();
    push(block, query_bytes(head))?;
    Ok(BlockEnds {
        method: head.method.len(),
        line,
        host,
        query: block.len(),
        has_query: head.query.is_some(),
    })
}

fn query_bytes<'a>(head: &LentHead<'a>) -> &'a [u8]
    ensures { result.now ≡ unwrap_or (option_copied head.now.query) [] }
{
    match head.query {
        Some(query) => query,
        None => b"",
    }
}

fn push(block: &mut Vec<u8>, bytes: &[u8]) -> Mem<()>
    ensures { OnOk result (block.new.items ≡ block.old.items ++ bytes.now) }
{
    block.extend_from_slice(bytes)?;
    Ok(())
}

// What ends a request line.
fn version_of(minor: u8) -> &'static str
    requires { minor ≤ 1 }
    ensures { result.now ≡ version_text minor }
{
    if minor == 0 { " HTTP/1.0" } else { " HTTP/1.1" }
}
