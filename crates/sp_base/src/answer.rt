//! What the publisher is asked, and answers before they are written as HTTP.
use crate::{ByteBuf, Path, TextBuf};

/// What a response says of caching, as the Cache-Control directive of its name (RFC 9111, section 5.2.2).
#[derive(Clone, Copy, PartialEq, Eq, Debug, Drop)]
pub enum Mark {
    Plain,
    NoCache,
    NoStore,
    MustRevalidate,
}

/// A request as it is asked of the publisher.
#[derive(Drop)]
pub struct Ask {
    /// The method as it was sent (RFC 9110, section 9.1: case counts).
    pub method: TextBuf,
    /// The host that is asked, without its port.
    pub host: TextBuf,
    pub port: u16,
    /// The path of the target, decoded and unmangled.
    pub path: Path,
    /// Whether a slash at the path's end was dropped.
    pub slash: bool,
    /// The media type of the body, empty where there is none.
    pub kind: TextBuf,
    pub body: ByteBuf,
}

/// What a request is answered.
#[derive(Drop)]
pub struct Answer {
    /// The status code (RFC 9110, section 15).
    pub status: u16,
    /// The media type of the body, empty where there is none.
    pub kind: TextBuf,
    /// Where a redirect leads, or where the new resource is: a reference (RFC 9110, section 10.2.2), empty where there is none.
    pub location: TextBuf,
    pub mark: Mark,
    pub body: ByteBuf,
}
