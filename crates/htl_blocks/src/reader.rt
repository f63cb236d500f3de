//! A script read from left to right.

ghost use Rattle.std.specs.Prelude.{◌≡◌, ◌≢◌, ◌-◌, ◌++◌, IfOk, IfErr, OnOk, Ok, Err, length};
ghost use Rattle.htl_text.specs.Template.{template_of, template_at};
ghost use Rattle.htl_blocks.specs.Attributes as attributes;
ghost use Rattle.htl_blocks.specs.Reading as spec;

use crate::attribute::Attributes;
use crate::attributes::tag_attributes;
use crate::block::{Block, Tag};
use crate::cut::{element_cut, run};
use crate::fault::BlockFault;
use htl_text::{Template, TextFault};
use sp_base::TextBuf;
use sqlite_items::{Boxed, Items};
use std::alloc::Global;

/// The place of a text that ends at a place.
fn place_of(end: usize, text: &str) -> usize
    ensures { result ≡ end - length text.now }
{
    end.saturating_sub(text.len())
}

/// Adds the text before a block element, where it isn't empty.
#[tactic(auto, unfolding(crate::specs::Reading::run_blocks))]
fn push_run(
    blocks: &mut Items<Block>,
    alloc: Global,
    place: usize,
    text: &str,
) -> Result<(), BlockFault>
    ensures ok { OnOk result (Ok blocks.new ≡ spec.with_blocks blocks.old (spec.run_blocks place text.now)) }
    ensures err { IfErr result (λ f. f ≢ BlockFault.NoMemory → spec.run_blocks place text.now ≡ Err f) }
{
    if text.is_empty() {
        return Ok(());
    }
    match Template::read_at(alloc, text, place) {
        Ok(template) => {
            blocks.push(Block::Text(template))?;
            Ok(())
        }
        Err(TextFault::NoMemory) => Err(BlockFault::NoMemory),
        Err(fault) => Err(BlockFault::Text(fault)),
    }
}

/// The template of a start tag, of which a fault is told at the tag.
fn start_template(alloc: Global, place: usize, text: &str) -> Result<Template, BlockFault>
    ensures ok { IfOk result (λ start. template_of text.now ≡ Ok start) }
    ensures err { IfErr result (λ f. f ≢ BlockFault.NoMemory → spec.start_fault place (template_of text.now) ≡ Some f) }
{
    match Template::read(alloc, text) {
        Ok(template) => Ok(template),
        Err(TextFault::Unclosed(_)) => Err(BlockFault::Text(TextFault::Unclosed(place))),
        Err(TextFault::BadExpr(_)) => Err(BlockFault::Text(TextFault::BadExpr(place))),
        Err(TextFault::NoMemory) => Err(BlockFault::NoMemory),
    }
}

/// The tag of an element, where so many levels may nest.
#[tactic(auto, unfolding(crate::specs::Reading::tag_of))]
fn tag_of(alloc: Global, levels: u32, place: usize, tag: &str) -> Result<Boxed<Tag>, BlockFault>
    ensures ok { IfOk result (λ x. spec.tag_of levels place tag.now ≡ Ok x) }
    ensures err { IfErr result (λ f. f ≢ BlockFault.NoMemory → spec.tag_of levels place tag.now ≡ Err f) }
{
    let (attributes, kept) = tag_attributes(alloc, place, tag)?;
    if levels == 0 {
        return Err(BlockFault::TooDeep(place));
    }
    let start = start_template(alloc, place, kept.text())?;
    Ok(Boxed::new(alloc, Tag { attributes, start })?)
}

/// The element at the beginning of a text that ends at a place of the whole, and what follows it.
#[cycle(reader)]
#[tactic(auto, unfolding(crate::specs::Reading::element))]
fn element(alloc: Global, levels: u32, end: usize, text: &str) -> Result<(Block, &str), BlockFault>
    ensures ok { IfOk result (λ x. spec.element_within levels end text.now ≡ Ok (x.0, x.1.now)) }
    ensures err { IfErr result (λ f. f ≢ BlockFault.NoMemory → spec.element_within levels end text.now ≡ Err f) }
{
    let place = place_of(end, text);
    let cut = element_cut(place, text)?;
    let tag = tag_of(alloc, levels, place, cut.tag)?;
    let inside_end = place_of(place_of(end, cut.rest), cut.end_tag);
    let content = blocks(alloc, levels.saturating_sub(1), inside_end, cut.inside)?;
    let end_tag = TextBuf::of(alloc, cut.end_tag)?;
    Ok((Block::Element(tag, content, end_tag), cut.rest))
}

/// The blocks of a text that ends at a place of the whole, where so many levels may nest.
#[cycle(reader)]
#[tactic(auto, unfolding(crate::specs::Reading::content_within, crate::specs::Reading::blocks_read))]
pub fn blocks(
    alloc: Global,
    levels: u32,
    end: usize,
    text: &str,
) -> Result<Items<Block>, BlockFault>
    ensures ok { IfOk result (λ found. spec.blocks_within levels end text.now ≡ Ok found) }
    ensures err { IfErr result (λ f. f ≢ BlockFault.NoMemory → spec.blocks_within levels end text.now ≡ Err f) }
{
    let mut found = Items::new(alloc);
    let mut rest = text;
    for _turn in 0..text.len() {
        let (before, element_text) = run(rest);
        push_run(&mut found, alloc, place_of(end, rest), before)?;
        if element_text.is_empty() {
            return Ok(found);
        }
        let (one, later) = element(alloc, levels, end, element_text)?;
        found.push(one)?;
        rest = later;
    }
    Ok(found)
}
