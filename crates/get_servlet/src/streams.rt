// The content of a resource that is a file.
ghost use Rattle.std.specs.Prelude.{◌≡◌, IfOk};
ghost use Rattle.std.specs.Option.{option_copied};
ghost use Rattle.get_servlet.specs.Streams.{is_media_type, media_type_of, stream_in, stream_of};

use crate::kids::{kid_of_name, lists_kid};
use resource_tree::{Look, Res};
use sp_base::{Mem, PropList, TextBuf, is_kind};
use std::alloc::Global;

/// The content of a file, and its media type.
#[derive(Drop)]
pub struct Stream {
    pub kind: TextBuf,
    pub body: TextBuf,
}

// Whether a text may be sent as a media type: 1 to `LONGEST_MEDIA_TYPE` printable bytes, the first and the last no spaces.
fn is_media_type(text: &str) -> bool
    ensures { result ≡ is_media_type text.now }
{
    let bytes = text.as_bytes();
    if bytes.is_empty() || !is_kind(bytes) {
        return false;
    }
    bytes[0] != b' ' && bytes[bytes.len() - 1] != b' '
}

fn media_type_of(alloc: Global, text: Option<&TextBuf>) -> Mem<TextBuf>
    ensures { IfOk result (λ kind. kind ≡ media_type_of (option_copied text.entry)) }
{
    match text {
        Some(text) if is_media_type(text.text()) => text.duplicate(alloc),
        _ => TextBuf::of(alloc, "application/octet-stream"),
    }
}

// The content that properties hold.
fn stream_in(alloc: Global, props: &PropList) -> Mem<Option<Stream>>
    ensures { IfOk result (λ stream. stream ≡ stream_in props.now) }
{
    let Some(body) = props.text("jcr:data") else {
        return Ok(None);
    };
    Ok(Some(Stream {
        kind: media_type_of(alloc, props.text("jcr:mimeType"))?,
        body: body.duplicate(alloc)?,
    }))
}

/// The content of a resource that is a file (JCR 2.0, nt:file): the text `jcr:data` of its kid `jcr:content`, with the kid's
/// `jcr:mimeType` where that may be sent, else `application/octet-stream`.
#[tactic(auto, unfolding(crate::specs::Streams::stream_of))]
pub fn stream_of<L: Look>(alloc: Global, look: &L, res: &Res<'_>) -> Mem<Option<Stream>>
    ensures { IfOk result (λ stream. stream ≡ stream_of (L.seen look.now) res.now) }
{
    if !lists_kid(res, "jcr:content") {
        return Ok(None);
    }
    let Some(content) = kid_of_name(alloc, look, res.path(), "jcr:content")? else {
        return Ok(None);
    };
    stream_in(alloc, content.res.props())
}
