// Reads content straight from the tokens of its JSON.
ghost use Rattle.std.specs.Prelude.{◌≡◌, ◌≤◌, ◌+◌, ◌∷◌, Some, None, true, length, IfOk, OnOk, MatchOption, if◌then◌else◌};
ghost use Rattle.json.specs.Token.{begin_object};
ghost use Rattle.serde_json.specs.Data.{no_members};
ghost use Rattle.sp_base.specs.Paths.{most_segments};
ghost use Rattle.content_json.specs.ContentOf.{map_of};
ghost use Rattle.content_json.specs.declared.part.Part.TheVariants as part;
ghost use Rattle.content_json.specs.Parts.{HoldsMembers, may_stand, nodes_of};
ghost use Rattle.content_json.specs.Tokens.{ReadsPartIfThere, ReadsMembersIfThere, ReadsObjectIfThere, IsSoundContent, IsUnsound, AreTopNodesIfSound};

use crate::names::{is_content_name, is_order, kid_path};
use crate::open_object::OpenObject;
use crate::part::{Part, Sprout};
use crate::pass::{pass_members, pass_value};
use crate::tokens::{is_begin_object, value_part};
use json::{Reader, Scratch};
use resource_tree::{MOST_NODES, NodeMap};
use sp_base::{MOST_SEGMENTS, Mem, Path};
use std::alloc::Global;
use std::hash::RandomState;

// How deep values may nest in a member beside the levels of nodes: 127 in all, without the top and 64 levels.
const DEPTH_BESIDE_LEVELS: usize = 62;

/// The nodes of sound content. There are none of content that isn't sound, and of a text that isn't JSON.
pub(crate) fn nodes_of_text(alloc: Global, seeds: RandomState, text: &str) -> Mem<Option<NodeMap>>
    ensures { IfOk result (λ found. MatchOption found (IsUnsound text.now) (IsSoundContent text.now)) }
{
    let mut scratch = Scratch::new(alloc);
    let mut reader = Reader::new(text, &mut scratch)?;
    let Some(first) = reader.next() else {
        return Ok(None);
    };
    if !is_begin_object(first) {
        return Ok(None);
    }
    let root = Path::root(alloc);
    let Some(part) = read_object(alloc, &mut reader, root, MOST_SEGMENTS)? else {
        return Ok(None);
    };
    if reader.next().is_some() {
        return Ok(None);
    }
    nodes_of_part(alloc, seeds, part)
}

// The nodes of what is made of the top. There are none where it is unfit, or there are too many.
fn nodes_of_part(alloc: Global, seeds: RandomState, part: Part) -> Mem<Option<NodeMap>>
    ensures { IfOk result (AreTopNodesIfSound part) }
{
    match part {
        Part::Kid(sprout) => {
            let sprout = Box::into_inner(sprout);
            if sprout.below.len() >= MOST_NODES {
                return Ok(None);
            }
            Ok(Some(planted(alloc, seeds, sprout)?))
        }
        Part::Unfit => Ok(None),
        Part::Nothing => Ok(None),
        Part::Value(_value) => Ok(None),
    }
}

// The nodes as a map.
fn planted(alloc: Global, seeds: RandomState, sprout: Sprout) -> Mem<NodeMap>
    ensures { IfOk result (λ nodes. nodes ≡ map_of (nodes_of sprout)) }
{
    let Sprout { top, mut below } = sprout;
    let mut nodes = NodeMap::new(alloc, seeds);
    'nodes: while let Some(placed) = below.pop() {
        nodes.insert(placed.path, placed.node)?;
    }
    nodes.insert(top.path, top.node)?;
    Ok(nodes)
}

// What is made of an object at a path, after its opening brace. There may be `levels` more levels below it. There is no answer where
// the tokens begin with no object.
#[cycle(from_tokens)]
fn read_object(
    alloc: Global,
    reader: &mut Reader<'_>,
    path: Path,
    levels: usize,
) -> Mem<Option<Part>>
    requires levels { length path + levels ≡ most_segments }
    ensures shorter { OnOk result (length reader.new ≤ length reader.old) }
    ensures read { IfOk result (ReadsObjectIfThere levels path reader.old reader.new) }
{
    let mut own = OpenObject::new(alloc);
    if !read_members(alloc, reader, &path, levels, &mut own)? {
        return Ok(None);
    }
    Ok(Some(own.into_part(alloc, path)?))
}

// Takes in the members up to the closing brace, and answers whether the tokens begin with some.
#[cycle(from_tokens)]
fn read_members<'a>(
    alloc: Global,
    reader: &mut Reader<'a>,
    path: &Path,
    levels: usize,
    parent: &mut OpenObject<'a>,
) -> Mem<bool>
    requires levels { length path.now + levels ≡ most_segments }
    requires fresh { HoldsMembers levels path.now parent.old no_members }
    ensures shorter { OnOk result (length reader.new ≤ length reader.old) }
    ensures read { IfOk result (ReadsMembersIfThere levels path.now parent.new reader.old reader.new) }
{
    'members: loop {
        let Ok(key) = reader.next_key() else {
            return Ok(false);
        };
        let Some(name) = key else {
            return Ok(true);
        };
        let Some(part) = read_member(alloc, reader, path, levels, name)? else {
            return Ok(false);
        };
        parent.put(name, part)?;
    }
}

// What is made of what isn't looked at.
fn unfit_if(whole: bool) -> Option<Part>
    ensures { result ≡ (if whole then Some part.Unfit else None) }
{
    if whole { Some(Part::Unfit) } else { None }
}

// What is made of the value of a member with a name. There is no answer where the tokens begin with no value.
#[cycle(from_tokens)]
fn read_member(
    alloc: Global,
    reader: &mut Reader<'_>,
    path: &Path,
    levels: usize,
    name: &str,
) -> Mem<Option<Part>>
    requires levels { length path.now + levels ≡ most_segments }
    ensures shorter { OnOk result (length reader.new ≤ length reader.old) }
    ensures read { IfOk result (ReadsPartIfThere levels path.now name.now reader.old reader.new) }
{
    let Some(first) = reader.next() else {
        return Ok(None);
    };
    let depth = levels + DEPTH_BESIDE_LEVELS;
    if !is_order(name) && !is_content_name(name) {
        return Ok(unfit_if(pass_value(reader, first, depth)));
    }
    if is_begin_object(first) {
        read_kid(alloc, reader, path, levels, name)
    } else {
        value_part(alloc, reader, first, depth)
    }
}

// What is made of a member that is an object, after its opening brace.
#[cycle(from_tokens)]
fn read_kid(
    alloc: Global,
    reader: &mut Reader<'_>,
    path: &Path,
    levels: usize,
    name: &str,
) -> Mem<Option<Part>>
    requires levels { length path.now + levels ≡ most_segments }
    requires named { may_stand name.now ≡ true }
    ensures shorter { OnOk result (length reader.new ≤ length reader.old) }
    ensures read { IfOk result (ReadsPartIfThere levels path.now name.now (begin_object ∷ reader.old) reader.new) }
{
    if levels == 0 {
        return Ok(unfit_if(pass_members(reader, DEPTH_BESIDE_LEVELS - 1)));
    }
    let kid = kid_path(alloc, path, name)?;
    read_object(alloc, reader, kid, levels - 1)
}
