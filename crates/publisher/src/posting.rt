//! What a POST puts over the tree, and what it is answered.
ghost use Rattle.std.specs.Prelude.{◌≡◌, ◌≢◌, ◌≤◌, IfOk, IfErr, Ok, Err, length};
ghost use Rattle.sp_base.specs.Limits.{most_rendered_bytes};
ghost use Rattle.resource_tree.specs.Content.{IsGood};
ghost use Rattle.resource_tree.specs.Patches.{patching};
ghost use Rattle.publisher.specs.Posting as spec;

use crate::refusal::Refusal;
use crate::targets::{PostTarget, target_of};
use form_input::read_form;
use location_field::location_of;
use post_apply::{Planned, PostReport, patch_of};
use post_plan::{TargetEnding, plan};
use resource_tree::Tree;
use sp_base::{Answer, Ask, ByteBuf, Mark, Mem, TextBuf};
use std::alloc::Global;

fn or_bad_request(target: Option<PostTarget>) -> Result<PostTarget, Refusal>
    ensures ok { IfOk result (λ t. spec.or_bad_request target ≡ Ok t) }
    ensures err { IfErr result (λ e. spec.or_bad_request target ≡ Err e) }
{
    match target {
        Some(target) => Ok(target),
        None => Err(Refusal::Status(400)),
    }
}

/// What a POST to a text puts over a tree, which stays as it is, or the first cause for which it is refused.
#[tactic(auto, unfolding(crate::specs::Posting::posting))]
pub(crate) fn planned(alloc: Global, tree: &Tree, ask: &Ask, text: &str) -> Result<Planned, Refusal>
    ensures ok { IfOk result (λ p. spec.posting tree.now ask.now text.now ≡ Ok (record { content = patching tree.now p.patch; report = p.report })) }
    ensures err { IfErr result (λ e. e ≢ Refusal.NoMemory → spec.posting tree.now ask.now text.now ≡ Err e) }
    ensures good { IfOk result (λ p. IsGood (patching tree.now p.patch)) }
{
    let target = or_bad_request(target_of(alloc, tree, text, ask.slash)?)?;
    let form = read_form(alloc, ask.kind.text(), ask.body.bytes())?;
    let ending = TargetEnding { star: target.star };
    let operation = plan(alloc, &target.path, ending, &form)?;
    Ok(patch_of(alloc, tree, &operation)?)
}

fn report_status(report: &PostReport) -> u16
    ensures { result ≡ spec.report_status report.now }
{
    if report.created { 201 } else { 200 }
}

fn report_location(alloc: Global, report: &PostReport) -> Mem<TextBuf>
    ensures { IfOk result (λ text. text ≡ spec.report_location report.now) }
{
    if report.created {
        location_of(alloc, report.path.as_text())
    } else {
        TextBuf::of(alloc, "")
    }
}

fn report_line(alloc: Global, report: &PostReport) -> Mem<ByteBuf>
    ensures { IfOk result (λ line. line ≡ spec.report_line report.now) }
{
    let status = report_status(report);
    let line = format!(in alloc; "{status} {}\n", report.path.as_text())?;
    Ok(ByteBuf::from(TextBuf::from(line)))
}

/// The answer to a POST that isn't refused.
pub(crate) fn report_answer(alloc: Global, report: &PostReport) -> Mem<Answer>
    ensures ok { IfOk result (λ a. a ≡ spec.report_answer report.now) }
    ensures fits { IfOk result (λ a. length a.body ≤ most_rendered_bytes) }
{
    // `depth` says that the path is one of few segments.
    let _segments = report.path.depth();
    Ok(Answer {
        status: report_status(report),
        kind: TextBuf::of(alloc, "text/plain;charset=utf-8")?,
        location: report_location(alloc, report)?,
        mark: Mark::Plain,
        body: report_line(alloc, report)?,
    })
}
