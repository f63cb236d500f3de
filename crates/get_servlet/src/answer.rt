// The answer to a GET of a resource as JSON.
ghost use Rattle.std.specs.Prelude.{◌≡◌, IfOk};
ghost use Rattle.get_servlet.specs.Answers.{levels_of, json_answer, Answers, ReadsAs};
ghost use Rattle.get_servlet.specs.Rendering.{resource_json};

use crate::measure::depth_instead;
use crate::writing::text_answer;
use resource_tree::{Look, Res};
use sp_base::{MOST_SEGMENTS, Mem, TextBuf};
use std::alloc::Global;

/// How many levels below a resource are asked for.
#[derive(Clone, Copy, Drop)]
pub enum Depth {
    Levels(u32),
    Infinity,
}

/// The JSON of a resource, or why it is not given.
#[derive(Drop)]
pub enum JsonAnswer {
    Whole(TextBuf),
    /// A text of more than one level would show more than 1,000 resources: the greatest depth to ask for instead.
    Over(u32),
    /// The text would have more bytes than it may.
    TooLong,
}

fn levels_of(depth: Depth) -> u32
    ensures { result ≡ levels_of depth }
{
    match depth {
        Depth::Levels(levels) => levels,
        Depth::Infinity => MOST_SEGMENTS as u32,
    }
}

/// A resource as JSON (Apache Sling, "Rendering content, default GET servlets"): its properties, and then its kids, to the depth that is asked for,
/// in a text of at most `most_bytes` bytes.
pub fn json_of<L: Look>(
    alloc: Global,
    look: &L,
    res: &Res<'_>,
    depth: Depth,
    most_bytes: usize,
) -> Mem<JsonAnswer>
    ensures value { IfOk result (λ answer. answer ≡ json_answer (L.seen look.now) res.now (levels_of depth) most_bytes) }
    ensures meaning { IfOk result (Answers (L.seen look.now) res.now (levels_of depth) most_bytes) }
    ensures reads_back { IfOk result (ReadsAs (resource_json (L.seen look.now) (levels_of depth) res.now.path res.now)) }
{
    let levels = levels_of(depth);
    match depth_instead(alloc, look, res, levels)? {
        Some(instead) => Ok(JsonAnswer::Over(instead)),
        None => text_answer(alloc, look, res, levels, most_bytes),
    }
}
