// Writes a resource as JSON: its properties, and then its kids in their order. It stops where the text is seen to be too long.
ghost use Rattle.std.specs.Prelude.{◌≡◌, IfOk};
ghost use Rattle.get_servlet.specs.Answers.{text_within, ReadsAs};
ghost use Rattle.get_servlet.specs.Rendering.{resource_json, json_text};
ghost use Rattle.get_servlet.specs.Steps.{member_tokens, below_tokens_at, Spends, named_kid_tokens_at, tokens_at};

use crate::answer::JsonAnswer;
use crate::kids::{Kid, shown_kid};
use crate::lengths::properties_bytes;
use json::Writer;
use property_json::{properties_come_first, write_properties};
use resource_tree::{Look, Res};
use sp_base::{Mem, Path, TextBuf};
use std::alloc::Global;

/// The bytes that are made room for before a text is begun, so that those of most resources need no more.
const FIRST_ROOM: usize = 256;

// A resource, at the path below which its kids are looked up.
#[derive(Clone, Copy)]
struct ResourceAt<'a> {
    path: &'a Path,
    res: &'a Res<'a>,
}

// How far a text may go.
#[derive(Clone, Copy)]
struct Bounds {
    /// The levels below the resource.
    depth: u32,
    /// The bytes that are left.
    room: usize,
}

// Writes a resource, and `depth` levels below it. The text leaves no more of a room of bytes than the answer says, and none
// is said where it needs more than the room: then, and out of memory, some of it may be written.
#[cycle(writing)]
fn write_resource<L: Look>(
    alloc: Global,
    look: &L,
    writer: &mut Writer,
    at: &ResourceAt<'_>,
    bounds: Bounds,
) -> Mem<Option<usize>>
    ensures { IfOk result (λ left. Spends bounds.room left writer.old writer.new (tokens_at (L.seen look.now) bounds.depth at.now)) }
{
    // A law: where the tokens of the kids stand.
    properties_come_first();
    let Some(room) = bounds.room.checked_sub(properties_bytes(at.res.props())) else {
        return Ok(None);
    };
    writer.begin_object()?;
    write_properties(writer, at.res.props())?;
    let depth = bounds.depth;
    let Some(left) = write_kids(alloc, look, writer, at, Bounds { depth, room })? else {
        return Ok(None);
    };
    writer.end_object()?;
    Ok(Some(left))
}

// Writes a kid as a member, and `depth` levels below it.
#[cycle(writing)]
fn write_member<L: Look>(
    alloc: Global,
    look: &L,
    writer: &mut Writer,
    kid: &Kid<'_>,
    name: &str,
    bounds: Bounds,
) -> Mem<Option<usize>>
    ensures { IfOk result (λ left. Spends bounds.room left writer.old writer.new (member_tokens (L.seen look.now) bounds.depth name.now kid.now)) }
{
    let Some(room) = bounds.room.checked_sub(name.len()) else {
        return Ok(None);
    };
    writer.key(name)?;
    let at = ResourceAt {
        path: &kid.path,
        res: &kid.res,
    };
    let depth = bounds.depth;
    write_resource(alloc, look, writer, &at, Bounds { depth, room })
}

// Writes the kid of a name as a member, if it is shown, and `depth` levels below it.
#[cycle(writing)]
fn write_kid<L: Look>(
    alloc: Global,
    look: &L,
    writer: &mut Writer,
    at: &ResourceAt<'_>,
    name: &str,
    bounds: Bounds,
) -> Mem<Option<usize>>
    ensures { IfOk result (λ left. Spends bounds.room left writer.old writer.new (named_kid_tokens_at (L.seen look.now) bounds.depth at.now name.now)) }
{
    match shown_kid(alloc, look, at.path, at.res, name)? {
        Some(kid) => write_member(alloc, look, writer, &kid, name, bounds),
        None => Ok(Some(bounds.room)),
    }
}

// Writes the kids of a resource as members, `depth` levels of them.
#[cycle(writing)]
fn write_kids<L: Look>(
    alloc: Global,
    look: &L,
    writer: &mut Writer,
    at: &ResourceAt<'_>,
    bounds: Bounds,
) -> Mem<Option<usize>>
    ensures { IfOk result (λ left. Spends bounds.room left writer.old writer.new (below_tokens_at (L.seen look.now) bounds.depth at.now)) }
{
    if bounds.depth == 0 {
        return Ok(Some(bounds.room));
    }
    let mut left = bounds.room;
    for name in at.res.kids() {
        let below = Bounds {
            depth: bounds.depth - 1,
            room: left,
        };
        let rest = write_kid(alloc, look, writer, at, name.text(), below)?;
        let Some(rest) = rest else {
            return Ok(None);
        };
        left = rest;
    }
    Ok(Some(left))
}

/// The compact text of a resource and `depth` levels below it, where it is short enough.
pub(crate) fn text_answer<L: Look>(
    alloc: Global,
    look: &L,
    res: &Res<'_>,
    depth: u32,
    most_bytes: usize,
) -> Mem<JsonAnswer>
    ensures value { IfOk result (λ answer. answer ≡ text_within most_bytes (json_text (L.seen look.now) depth res.now)) }
    ensures reads_back { IfOk result (ReadsAs (resource_json (L.seen look.now) depth res.now.path res.now)) }
{
    let mut writer = Writer::new(Vec::with_capacity(alloc, FIRST_ROOM)?);
    let at = ResourceAt {
        path: res.path(),
        res,
    };
    let bounds = Bounds {
        depth,
        room: most_bytes,
    };
    let Some(_) = write_resource(alloc, look, &mut writer, &at, bounds)? else {
        return Ok(JsonAnswer::TooLong);
    };
    let text = String::from_utf8(writer.into_inner()).unwrap();
    if text.len() > most_bytes {
        return Ok(JsonAnswer::TooLong);
    }
    Ok(JsonAnswer::Whole(TextBuf::from(text)))
}
