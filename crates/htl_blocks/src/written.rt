//! What blocks write.

ghost use Rattle.std.specs.Prelude.{◌<◌, length};
ghost use Rattle.htl_expr.specs.Bindings.{with_vars};
ghost use Rattle.htl_expr.specs.Variables.{vars_of};
ghost use Rattle.htl_text.specs.Template.{template_output};
ghost use Rattle.htl_blocks.specs.Settings.{HasItems, IsSettingIn, seen_at};
ghost use Rattle.htl_blocks.specs.Sheets.{WroteParts};
ghost use Rattle.htl_blocks.specs.Written as spec;
ghost use Rattle.htl_blocks.specs.SettingParts.{element_for_setting, element_for_items, element_for_list, element_once, round_for_setting, rounds_for_setting};

use crate::attribute::Body;
use crate::block::Block;
use crate::element_tags::ElementTags;
use crate::piece::Round;
use crate::repetition::Repetition;
use crate::run_fault::RunFault;
use crate::setting::Setting;
use crate::sheet::{Sheet, include_resource, include_script, keeps_tags, listed, passes, write};
use crate::variable_room::item_at;
use htl_expr::Variables;
use htl_text::Template;
use sp_base::TextBuf;
use std::alloc::Global;

/// A start tag, where the tags stand.
#[tactic(auto, using(crate::proofs::WrittenLemmas::tag_stands, crate::proofs::WrittenLemmas::no_tag))]
fn open_tag<'v, 'a: 'v>(
    sheet: &mut Sheet<'a>,
    alloc: Global,
    vars: &'v Variables<'v>,
    keeps: bool,
    start: &'v Template,
) -> Result<(), RunFault>
    ensures { WroteParts result sheet.old sheet.new (spec.tag_parts keeps (template_output (with_vars sheet.old.scope (vars_of vars.now)) start.now)) }
{
    if keeps {
        write(sheet, alloc, vars, start)
    } else {
        Ok(())
    }
}

/// An end tag, where the tags stand.
#[tactic(auto, using(crate::proofs::WrittenLemmas::tag_stands, crate::proofs::WrittenLemmas::no_tag))]
fn close_tag(sheet: &mut Sheet, keeps: bool, end_tag: &str) -> Result<(), RunFault>
    ensures { WroteParts result sheet.old sheet.new (spec.tag_parts keeps end_tag.now) }
{
    if keeps { sheet.push(end_tag) } else { Ok(()) }
}

/// What stands in an element.
#[cycle(written)]
fn inside<'v, 'a: 'v>(
    sheet: &mut Sheet<'a>,
    alloc: Global,
    setting: &Setting<'v, 'a>,
    body: &'a Option<Body>,
    content: &'a [Block],
) -> Result<(), RunFault>
    requires { IsSettingIn sheet.old.scope setting.now }
    ensures { WroteParts result sheet.old sheet.new (spec.body_parts body.now (λ scope. spec.blocks_parts scope content.now) (seen_at sheet.old.scope setting.now)) }
{
    match body {
        None => blocks(sheet, alloc, setting, content),
        Some(Body::Text(value)) => write(sheet, alloc, setting.vars, value),
        Some(Body::Include(value)) => include_script(sheet, alloc, setting, value),
        Some(Body::Resource(value)) => include_resource(sheet, alloc, setting.vars, value),
    }
}

/// What stands in an element for the item at an index of its list.
#[cycle(written)]
fn round<'v, 'a: 'v>(
    sheet: &mut Sheet<'a>,
    alloc: Global,
    setting: &Setting<'v, 'a>,
    content: &'a [Block],
    repetition: &Repetition<'v, 'a>,
    index: usize,
) -> Result<(), RunFault>
    requires setting { IsSettingIn sheet.old.scope setting.now }
    requires items { HasItems (seen_at sheet.old.scope setting.now) repetition.now }
    requires index { index < length repetition.now.items }
    ensures { WroteParts result sheet.old sheet.new (round_for_setting sheet.old.scope setting.now content.now repetition.now index) }
{
    sheet.begin_round()?;
    let Some(item) = item_at(alloc, setting.vars, repetition, index)? else {
        return Ok(());
    };
    let frame = setting.frame.within(
        alloc,
        Round {
            list: repetition.list,
            name: repetition.name,
            index,
        },
    )?;
    let vars = Variables::With(repetition.name, item.text(), &*setting.vars);
    let inner = Setting {
        vars: &vars,
        frame: &frame,
    };
    inside(sheet, alloc, &inner, repetition.body, content)
}

/// What stands in an element for each item of its list.
#[cycle(written)]
fn rounds<'v, 'a: 'v>(
    sheet: &mut Sheet<'a>,
    alloc: Global,
    setting: &Setting<'v, 'a>,
    content: &'a [Block],
    repetition: &Repetition<'v, 'a>,
) -> Result<(), RunFault>
    requires setting { IsSettingIn sheet.old.scope setting.now }
    requires items { HasItems (seen_at sheet.old.scope setting.now) repetition.now }
    ensures { WroteParts result sheet.old sheet.new (rounds_for_setting sheet.old.scope setting.now content.now repetition.now) }
{
    for index in 0..repetition.items.len() {
        round(sheet, alloc, setting, content, repetition, index)?;
    }
    Ok(())
}

/// An element whose content stands once.
#[cycle(written)]
fn once<'v, 'a: 'v>(
    sheet: &mut Sheet<'a>,
    alloc: Global,
    setting: &Setting<'v, 'a>,
    tags: &ElementTags<'a>,
    content: &'a [Block],
) -> Result<(), RunFault>
    requires { IsSettingIn sheet.old.scope setting.now }
    ensures { WroteParts result sheet.old sheet.new (element_once sheet.old.scope setting.now tags.now content.now) }
{
    let start = tags.start;
    let keeps = keeps_tags(sheet, alloc, setting.vars, &start.attributes.unwrap)?;
    open_tag(sheet, alloc, setting.vars, keeps, &start.start)?;
    inside(sheet, alloc, setting, &start.attributes.body, content)?;
    close_tag(sheet, keeps, tags.end)
}

/// An element whose content stands once for each of these items.
#[cycle(written)]
fn for_items<'v, 'a: 'v>(
    sheet: &mut Sheet<'a>,
    alloc: Global,
    setting: &Setting<'v, 'a>,
    tags: &ElementTags<'a>,
    content: &'a [Block],
    repetition: &Repetition<'v, 'a>,
) -> Result<(), RunFault>
    requires setting { IsSettingIn sheet.old.scope setting.now }
    requires items { HasItems (seen_at sheet.old.scope setting.now) repetition.now }
    ensures { WroteParts result sheet.old sheet.new (element_for_items sheet.old.scope setting.now tags.now content.now repetition.now) }
{
    if repetition.items.len() == 0 {
        return Ok(());
    }
    let start = tags.start;
    let keeps = keeps_tags(sheet, alloc, setting.vars, &start.attributes.unwrap)?;
    open_tag(sheet, alloc, setting.vars, keeps, &start.start)?;
    rounds(sheet, alloc, setting, content, repetition)?;
    close_tag(sheet, keeps, tags.end)
}

/// An element whose content stands once for each item of its list.
#[cycle(written)]
fn repeated<'v, 'a: 'v>(
    sheet: &mut Sheet<'a>,
    alloc: Global,
    setting: &Setting<'v, 'a>,
    tags: &ElementTags<'a>,
    content: &'a [Block],
    list: &'a (TextBuf, Template),
) -> Result<(), RunFault>
    requires { IsSettingIn sheet.old.scope setting.now }
    ensures { WroteParts result sheet.old sheet.new (element_for_list sheet.old.scope setting.now tags.now content.now list.now) }
{
    let Some(items) = listed(sheet, alloc, setting.vars, &list.1)? else {
        return Ok(());
    };
    let repetition = Repetition {
        name: list.0.text(),
        list: &list.1,
        items,
        body: &tags.start.attributes.body,
    };
    for_items(sheet, alloc, setting, tags, content, &repetition)
}

/// An element with its start tag, its content and its end tag.
#[cycle(written)]
fn element<'v, 'a: 'v>(
    sheet: &mut Sheet<'a>,
    alloc: Global,
    setting: &Setting<'v, 'a>,
    tags: &ElementTags<'a>,
    content: &'a [Block],
) -> Result<(), RunFault>
    requires { IsSettingIn sheet.old.scope setting.now }
    ensures { WroteParts result sheet.old sheet.new (element_for_setting sheet.old.scope setting.now tags.now content.now) }
{
    let start = tags.start;
    if !passes(sheet, alloc, setting.vars, &start.attributes.test)? {
        return Ok(());
    }
    match &start.attributes.list {
        None => once(sheet, alloc, setting, tags, content),
        Some(list) => repeated(sheet, alloc, setting, tags, content, list),
    }
}

/// A block.
#[cycle(written)]
fn block<'v, 'a: 'v>(
    sheet: &mut Sheet<'a>,
    alloc: Global,
    setting: &Setting<'v, 'a>,
    one: &'a Block,
) -> Result<(), RunFault>
    requires { IsSettingIn sheet.old.scope setting.now }
    ensures { WroteParts result sheet.old sheet.new (spec.block_parts one.now (seen_at sheet.old.scope setting.now)) }
{
    match one {
        Block::Text(template) => write(sheet, alloc, setting.vars, template),
        Block::Element(tag, content, end_tag) => {
            let tags = ElementTags {
                start: tag.get(),
                end: end_tag.text(),
            };
            element(sheet, alloc, setting, &tags, content.as_slice())
        }
    }
}

/// Writes what blocks write in a setting.
#[cycle(written)]
pub fn blocks<'v, 'a: 'v>(
    sheet: &mut Sheet<'a>,
    alloc: Global,
    setting: &Setting<'v, 'a>,
    all: &'a [Block],
) -> Result<(), RunFault>
    requires { IsSettingIn sheet.old.scope setting.now }
    ensures { WroteParts result sheet.old sheet.new (spec.blocks_parts (seen_at sheet.old.scope setting.now) all.now) }
{
    for one in all {
        block(sheet, alloc, setting, one)?;
    }
    Ok(())
}
