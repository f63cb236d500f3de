//! Where block elements stand in a text.

ghost use Rattle.std.specs.Prelude.{◌≡◌, ◌==◌, ◌&&◌, ◌<◌, IfSome, IfOk, IfErr, Some, None, Ok, Err, true, false, length, take, drop};
ghost use Rattle.htl_blocks.specs.LentValues.{cut_shown};
ghost use Rattle.htl_blocks.specs.Markup as spec;
ghost use Rattle.htl_blocks.specs.Reading as reading;

use crate::fault::BlockFault;
use crate::markup::{
    closes, first_part, has_no_content, is_block_tag, opens, part_len, tag_end, tag_name,
};

/// An element at the beginning of a text, and what follows it.
#[derive(Drop)]
pub struct Cut<'a> {
    pub tag: &'a str,
    pub inside: &'a str,
    pub end_tag: &'a str,
    pub rest: &'a str,
}

/// How many bytes stand before the first block tag.
#[tactic(auto, unfolding(crate::specs::Reading::text_run_len))]
fn run_len(text: &[u8]) -> usize
    ensures { result ≡ reading.text_run_len (spec.parts text.now) }
{
    let mut len = 0;
    let mut rest = text;
    while !rest.is_empty() {
        let (part, later) = first_part(rest);
        if is_block_tag(part) {
            return len;
        }
        len += part.len();
        rest = later;
    }
    len
}

/// The text before the first block tag, and the text from there on.
#[tactic(auto, unfolding(crate::specs::Reading::run_of, crate::specs::Reading::after_text_run))]
pub fn run(text: &str) -> (&str, &str)
    ensures run { result.0.now ≡ reading.run_of text.now }
    ensures rest { result.1.now ≡ reading.after_text_run text.now }
{
    text.split_at(run_len(text.as_bytes()))
}

/// How many tags of a name wait for their end tags after a part.
fn waiting_after(name: &[u8], waiting: usize, part: &[u8]) -> usize
    requires { waiting < usize.MAX }
    ensures { result ≡ spec.waiting_after name.now waiting part.now }
{
    if closes(name, part) {
        waiting.saturating_sub(1)
    } else if opens(name, part) {
        waiting + 1
    } else {
        waiting
    }
}

/// Whether a part is the end tag that closes the element.
fn is_end(name: &[u8], waiting: usize, part: &[u8]) -> bool
    ensures { result ≡ (waiting == 0) && spec.closes name.now part.now }
{
    waiting == 0 && closes(name, part)
}

/// How many bytes stand before the end tag that closes an element of this name.
#[tactic(auto, unfolding(crate::specs::Markup::inside_len))]
fn inside_len(name: &[u8], text: &[u8]) -> Option<usize>
    ensures { result ≡ spec.inside_len name.now 0 0 (spec.parts text.now) }
{
    let mut waiting = 0;
    let mut len = 0;
    let mut rest = text;
    while !rest.is_empty() {
        let (part, later) = first_part(rest);
        if is_end(name, waiting, part) {
            return Some(len);
        }
        waiting = waiting_after(name, waiting, part);
        len += part.len();
        rest = later;
    }
    None
}

/// The end tag at the beginning of a text, and what follows it.
fn end_tag_split(text: &str) -> (&str, &str)
    requires some { 0 < length text.now }
    requires end_tag { spec.begins_end_tag (take (spec.part_len text.now) text.now) ≡ true }
    ensures end_tag { result.0.now ≡ take (spec.part_len text.now) text.now }
    ensures rest { result.1.now ≡ drop (spec.part_len text.now) text.now }
{
    text.split_at(part_len(text.as_bytes()))
}

/// The parts of an element whose content has this many bytes.
fn cut_at<'a>(tag: &'a str, text: &'a str, len: usize) -> Cut<'a>
    requires { spec.inside_len (spec.tag_name tag.now) 0 0 (spec.parts text.now) ≡ Some len }
    ensures { Ok (cut_shown result) ≡ reading.cut_at 0 tag.now text.now (Some len) }
{
    let (inside, from_end_tag) = text.split_at(len);
    let (end_tag, rest) = end_tag_split(from_end_tag);
    Cut {
        tag,
        inside,
        end_tag,
        rest,
    }
}

/// The tag at the beginning, and the text after it, where the tag has its end.
#[tactic(auto, unfolding(crate::specs::Markup::is_ended, crate::specs::Markup::tag_len))]
fn tag_split(text: &str) -> Option<(&str, &str)>
    ensures none { result ≡ None → spec.is_ended text.now ≡ false }
    ensures some { IfSome result (λ x. spec.SplitsTag text.now x.0.now x.1.now) }
{
    match tag_end(text.as_bytes()) {
        Some(place) => Some(text.split_at(place + 1)),
        None => None,
    }
}

/// The parts of an element with this tag, before this rest.
fn cut_after<'a>(place: usize, tag: &'a str, rest: &'a str) -> Result<Cut<'a>, BlockFault>
    ensures ok { IfOk result (λ cut. reading.cut_after place tag.now rest.now ≡ Ok (cut_shown cut)) }
    ensures err { IfErr result (λ f. reading.cut_after place tag.now rest.now ≡ Err f) }
{
    if has_no_content(tag.as_bytes()) {
        return Ok(Cut {
            tag,
            inside: "",
            end_tag: "",
            rest,
        });
    }
    match inside_len(tag_name(tag.as_bytes()), rest.as_bytes()) {
        Some(len) => Ok(cut_at(tag, rest, len)),
        None => Err(BlockFault::OpenTag(place)),
    }
}

/// The parts of the element at the beginning.
#[tactic(auto, unfolding(crate::specs::Reading::element_cut))]
pub fn element_cut(place: usize, text: &str) -> Result<Cut<'_>, BlockFault>
    ensures ok { IfOk result (λ cut. reading.element_cut place text.now ≡ Ok (cut_shown cut)) }
    ensures err { IfErr result (λ f. reading.element_cut place text.now ≡ Err f) }
{
    match tag_split(text) {
        Some((tag, rest)) => cut_after(place, tag, rest),
        None => Err(BlockFault::OpenTag(place)),
    }
}
