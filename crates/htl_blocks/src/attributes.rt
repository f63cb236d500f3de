//! The block statements of a tag, and its text without them.

ghost use Rattle.std.specs.Prelude.{◌≡◌, ◌≢◌, ◌++◌, IfOk, IfErr, Some, None, option_map, string_bytes};
ghost use Rattle.htl_blocks.specs.Attributes as spec;
ghost use Rattle.htl_blocks.specs.declared.attribute.Attribute.TheVariants as attribute;

use crate::attribute::{Attribute, Attributes, Body, Unwrap};
use crate::byte_run::is_blank;
use crate::fault::BlockFault;
use crate::markup::{statement_place, tail};
use crate::value::{after_attribute, attribute_of};
use htl_text::Template;
use sp_base::{Mem, TextBuf};
use std::alloc::Global;

impl Attributes {
    fn none() -> Attributes
        ensures { result ≡ spec.no_attributes }
    {
        Attributes {
            test: None,
            list: None,
            body: None,
            unwrap: None,
        }
    }
}

fn with_test(attributes: Attributes, value: Template) -> Option<Attributes>
    ensures { result ≡ spec.with_attribute attributes (attribute.Test value) }
{
    let mut attributes = attributes;
    if attributes.test.is_some() {
        return None;
    }
    attributes.test = Some(value);
    Some(attributes)
}

fn with_list(attributes: Attributes, name: TextBuf, value: Template) -> Option<Attributes>
    ensures { result ≡ spec.with_attribute attributes (attribute.List name value) }
{
    let mut attributes = attributes;
    if attributes.list.is_some() {
        return None;
    }
    attributes.list = Some((name, value));
    Some(attributes)
}

fn with_body(attributes: Attributes, body: Body) -> Option<Attributes>
    ensures { result ≡ spec.with_attribute attributes (attribute.Body body) }
{
    let mut attributes = attributes;
    if attributes.body.is_some() {
        return None;
    }
    attributes.body = Some(body);
    Some(attributes)
}

fn with_unwrap(attributes: Attributes, unwrap: Unwrap) -> Option<Attributes>
    ensures { result ≡ spec.with_attribute attributes (attribute.Unwrap unwrap) }
{
    let mut attributes = attributes;
    if attributes.unwrap.is_some() {
        return None;
    }
    attributes.unwrap = Some(unwrap);
    Some(attributes)
}

/// One statement more, where there is none like it.
fn with_attribute(attributes: Attributes, attribute: Attribute) -> Option<Attributes>
    ensures { result ≡ spec.with_attribute attributes attribute }
{
    match attribute {
        Attribute::Test(value) => with_test(attributes, value),
        Attribute::List(name, value) => with_list(attributes, name, value),
        Attribute::Body(body) => with_body(attributes, body),
        Attribute::Unwrap(unwrap) => with_unwrap(attributes, unwrap),
    }
}

/// How many bytes stand before the blanks at the end.
#[tactic(auto, unfolding(crate::specs::Attributes::end_trimmed))]
fn trimmed_len(text: &[u8]) -> usize
    ensures { result ≡ spec.trimmed_len text.now }
{
    let mut rest = text;
    while let [leading @ .., c] = rest {
        if !is_blank(*c) {
            return rest.len();
        }
        rest = leading;
    }
    rest.len()
}

/// A text without the blanks at its end.
fn end_trimmed(text: &str) -> &str
    ensures { result.now ≡ spec.end_trimmed text.now }
{
    text.split_at(trimmed_len(text.as_bytes())).0
}

/// The text before the next statement, and the statement with what follows it.
#[tactic(auto, unfolding(crate::specs::Attributes::statement_split))]
fn statement_split(text: &str) -> Option<(&str, &str)>
    ensures { option_map (λ x. (x.0.now, x.1.now)) result ≡ spec.statement_split text.now }
{
    match statement_place(text.as_bytes()) {
        Some(place) => {
            let (before, rest) = text.split_at(place);
            Some((end_trimmed(before), tail(rest)))
        }
        None => None,
    }
}

/// The statements with the one that begins this text, where it is one and there is none like it.
fn added(
    alloc: Global,
    place: usize,
    found: Attributes,
    statement: &str,
) -> Result<Attributes, BlockFault>
    ensures ok { IfOk result (λ a. spec.with_known found (spec.attribute_of statement.now) ≡ Some a) }
    ensures err { IfErr result (λ f. f ≢ BlockFault.NoMemory → (f ≡ BlockFault.BadBlock place) × (spec.with_known found (spec.attribute_of statement.now) ≡ None)) }
{
    let Some(attribute) = attribute_of(alloc, statement)? else {
        return Err(BlockFault::BadBlock(place));
    };
    match with_attribute(found, attribute) {
        Some(more) => Ok(more),
        None => Err(BlockFault::BadBlock(place)),
    }
}

fn finished(found: Attributes, kept: String, rest: &str) -> Mem<(Attributes, TextBuf)>
    ensures { IfOk result (λ x. x ≡ (found, string_bytes kept ++ rest.now)) }
{
    let mut kept = kept;
    kept.push_str(rest)?;
    Ok((found, TextBuf::from(kept)))
}

/// What a tag at a place says: its statements, and its text without them.
pub fn tag_attributes(
    alloc: Global,
    place: usize,
    tag: &str,
) -> Result<(Attributes, TextBuf), BlockFault>
    ensures ok { IfOk result (λ x. spec.tag_attributes tag.now ≡ Some x) }
    ensures err { IfErr result (λ f. f ≢ BlockFault.NoMemory → (f ≡ BlockFault.BadBlock place) × (spec.tag_attributes tag.now ≡ None)) }
{
    let mut found = Attributes::none();
    let mut kept = String::new(alloc);
    let mut rest = tag;
    for _turn in 0..tag.len() {
        match statement_split(rest) {
            None => return Ok(finished(found, kept, rest)?),
            Some((before, statement)) => {
                let more = added(alloc, place, found, statement)?;
                found = more;
                kept.push_str(before)?;
                rest = after_attribute(statement);
            }
        }
    }
    Ok(finished(found, kept, rest)?)
}
