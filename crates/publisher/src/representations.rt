// The answers of a resource.
ghost use Rattle.std.specs.Prelude.{◌≡◌, None, Some, IfOk};
ghost use Rattle.get_servlet.specs.Streams.{stream_of};
ghost use Rattle.publisher.specs.Depths.{depth_of};
ghost use Rattle.type_chain.specs.Chain.{chain_of};
ghost use Rattle.script_rank.specs.Search.{search_result as first_script};
ghost use Rattle.publisher.specs.Kept.{AreReadings};
ghost use Rattle.publisher.specs.Rendering.{representation_of, json_representation, json_to_depth, file_representation, is_bare, default_answer, resource_answer, script_there, seen_resources};
ghost use Rattle.publisher.specs.SeenAlone.{IsSeenAlone, answer_seen, seen_answer, shows_no_kid};

use crate::choices::choices_text;
use crate::depths::depth_of;
use crate::errors::answer_of;
use crate::lent_content::LentContent;
use crate::methods::mark_of;
use crate::scripts::script_representation;
use crate::templates::{Templates, reading_at};
use error_answers::error_answer;
use get_servlet::{Depth, JsonAnswer, Stream, json_of, stream_of};
use overlay_merge::{MergedView, is_merged_path, merged, merged_with_kid};
use resource_tree::{Look, Res, Tree};
use sp_base::{Answer, ByteBuf, MOST_RENDERED_BYTES, Mark, Mem, Path, TextBuf};
use std::alloc::Global;
use url_split::Parts;

const JSON_KIND: &str = "application/json;charset=utf-8";

/// A representation, or an error where it is too long.
pub(crate) fn representation_of(alloc: Global, kind: &str, mark: Mark, body: TextBuf) -> Mem<Answer>
    ensures { IfOk result (λ a. a ≡ representation_of kind.now mark body) }
{
    if body.text().len() > MOST_RENDERED_BYTES {
        return error_answer(alloc, 500);
    }
    answer_of(alloc, 200, kind, mark, ByteBuf::from(body))
}

fn json_representation(alloc: Global, res: &Res, answer: JsonAnswer) -> Mem<Answer>
    ensures { IfOk result (λ a. a ≡ json_representation res.now answer) }
{
    match answer {
        JsonAnswer::Whole(text) => representation_of(alloc, JSON_KIND, mark_of(res), text),
        JsonAnswer::Over(most) => {
            let choices = choices_text(alloc, res.path(), most)?;
            answer_of(alloc, 300, JSON_KIND, Mark::Plain, ByteBuf::from(choices))
        }
        JsonAnswer::TooLong => error_answer(alloc, 500),
    }
}

// The resource as JSON, to the depth that the selectors ask for.
fn json_to_depth<L: Look>(alloc: Global, look: &L, parts: &Parts, res: &Res) -> Mem<Answer>
    ensures { IfOk result (λ a. a ≡ json_to_depth (L.seen look.now) res.now (depth_of parts.now.selectors)) }
{
    let Some(depth) = depth_of(&parts.selectors) else {
        return error_answer(alloc, 400);
    };
    json_representation(
        alloc,
        res,
        json_of(alloc, look, res, depth, MOST_RENDERED_BYTES)?,
    )
}

fn file_representation<L: Look>(alloc: Global, look: &L, res: &Res) -> Mem<Answer>
    ensures { IfOk result (λ a. a ≡ file_representation res.now (stream_of (L.seen look.now) res.now)) }
{
    let Some(stream) = stream_of(alloc, look, res)? else {
        return error_answer(alloc, 404);
    };
    let Stream { kind, body } = stream;
    representation_of(alloc, kind.text(), mark_of(res), body)
}

// Whether the URL names the resource and nothing else.
fn is_bare(parts: &Parts) -> bool
    ensures { result ≡ is_bare parts.now }
{
    parts.selectors.is_empty()
        && parts.extension.text().is_empty()
        && parts.suffix.text().is_empty()
}

// The answer of the default GET servlet.
fn default_answer<L: Look>(alloc: Global, look: &L, parts: &Parts, res: &Res) -> Mem<Answer>
    ensures { IfOk result (λ a. a ≡ default_answer (L.seen look.now) parts.now res.now) }
{
    if parts.extension.text() == "json" {
        return json_to_depth(alloc, look, parts, res);
    }
    if is_bare(parts) {
        return file_representation(alloc, look, res);
    }
    error_answer(alloc, 404)
}

// Whether the answer of the default GET servlet shows no kid, and asks for none: JSON of the resource alone, and what is refused.
fn shows_no_kid(parts: &Parts) -> bool
    ensures { result ≡ shows_no_kid parts.now }
{
    if parts.extension.text() != "json" {
        return !is_bare(parts);
    }
    match depth_of(&parts.selectors) {
        Some(Depth::Levels(levels)) => levels == 0,
        Some(Depth::Infinity) => false,
        None => true,
    }
}

// The resource that is seen at the path of the parts, with the kids that the default GET servlet asks for.
fn seen_with_kids<'a>(alloc: Global, tree: &'a Tree, parts: &Parts) -> Mem<Option<Res<'a>>>
    ensures { IfOk result (λ o. answer_seen None tree.entry.now parts.now o ≡ seen_answer None tree.entry.now parts.now) }
{
    if parts.extension.text() == "json" {
        merged(alloc, tree, &parts.path)
    } else {
        merged_with_kid(alloc, tree, &parts.path, "jcr:content")
    }
}

// The answer of the default GET servlet for the resource that is seen at the path of the parts. It is seen with its kids now, where
// the answer shows some.
fn default_answer_there(alloc: Global, tree: &Tree, parts: &Parts, res: &Res) -> Mem<Answer>
    requires { IsSeenAlone tree.now parts.now res.now }
    ensures { IfOk result (λ a. a ≡ seen_answer None tree.now parts.now) }
{
    let view = MergedView { tree };
    if !is_merged_path(&parts.path) {
        return default_answer(alloc, &view, parts, res);
    }
    if shows_no_kid(parts) {
        return default_answer(alloc, &view, parts, res);
    }
    match seen_with_kids(alloc, tree, parts)? {
        Some(whole) => default_answer(alloc, &view, parts, &whole),
        None => error_answer(alloc, 404),
    }
}

// The answer of a resource by the script at a path, or of the default GET servlet where there is no script's text.
fn answer_by_script(
    alloc: Global,
    content: &LentContent,
    templates: &mut Templates,
    parts: &Parts,
    res: &Res,
    script: Path,
) -> Mem<Answer>
    requires kept { AreReadings content.now templates.old }
    requires seen { IsSeenAlone content.now parts.now res.now }
    ensures answer { IfOk result (λ a. a ≡ seen_answer (script_there content.now script) content.now parts.now) }
    ensures kept { AreReadings content.now templates.new }
{
    let tree = content.tree();
    match reading_at(alloc, tree, templates, &script)? {
        Some(reading) => script_representation(alloc, content, templates, &script, &reading, res),
        None => default_answer_there(alloc, tree, parts, res),
    }
}

/// The answer of the resource that the parts of a URL name, as it is seen without its kids: what the script that ranks first for it
/// writes, which asks for its properties alone, or what the default GET servlet answers.
#[tactic(auto, unfolding(crate::specs::Rendering::script_for))]
pub(crate) fn resource_answer(
    alloc: Global,
    content: &LentContent,
    templates: &mut Templates,
    parts: &Parts,
    res: &Res,
    script: Option<Path>,
) -> Mem<Answer>
    requires kept { AreReadings content.now templates.old }
    requires script { script ≡ first_script content.now (chain_of content.now res.now.props) parts.now }
    requires seen { IsSeenAlone content.now parts.now res.now }
    ensures answer { IfOk result (λ a. a ≡ resource_answer content.now parts.now (seen_resources content.now parts.now.path)) }
    ensures kept { AreReadings content.now templates.new }
{
    match script {
        Some(script) => answer_by_script(alloc, content, templates, parts, res, script),
        None => default_answer_there(alloc, content.tree(), parts, res),
    }
}
