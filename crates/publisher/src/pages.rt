// Pages: what a script writes, with what is put in.

ghost use Rattle.std.specs.Prelude.{◌≡◌, ◌≢◌, IfOk, IfErr};
ghost use Rattle.htl_expr.specs.Variables.{vars_of};
ghost use Rattle.htl_blocks.specs.Parts as part;
ghost use Rattle.htl_blocks.specs.Pieces.{piece_parts};
ghost use Rattle.htl_blocks.specs.Written.{blocks_parts};
ghost use Rattle.publisher.specs.Gathering.{Gathered, PassLimits, parts_in, inclusion_in, script_page};
ghost use Rattle.publisher.specs.Kept.{AreReadings};
ghost use Rattle.publisher.specs.Pages.{parts_page};
ghost use Rattle.publisher.specs.Waits.{IsLeastOf};

use crate::names::path_named;
use crate::page_fault::PageFault;
use crate::page_text::PageText;
use crate::ranking::html_script;
use crate::script_blocks::script_blocks;
use crate::setting::{Setting, scope_in};
use crate::templates::Templates;
use crate::waiting::{Waiting, least_of, size_of_piece};
use htl_blocks::{Blocks, Piece, PieceList, RunFault};
use htl_expr::{Scope, Variables};
use overlay_merge::merged_alone;
use std::alloc::Global;

// What the blocks of a script write, as pieces.
fn pieces<'p>(
    alloc: Global,
    scope: &Scope<'p>,
    blocks: &'p Blocks,
) -> Result<PieceList<'p>, PageFault>
    ensures scope { IfOk result (λ l. l.scope ≡ scope.now) }
    ensures parts { IfOk result (λ l. l.parts ≡ part.seen (blocks_parts scope.now blocks.now)) }
    ensures rounds { IfOk result (λ l. l.rounds ≡ part.rounds (blocks_parts scope.now blocks.now)) }
    ensures over { IfErr result (λ f. f ≢ PageFault.NoMemory → PassLimits (blocks_parts scope.now blocks.now)) }
{
    match blocks.pieces(alloc, scope) {
        Ok(list) => Ok(list),
        Err(RunFault::TooLong) => Err(PageFault::Over),
        Err(RunFault::TooMany) => Err(PageFault::Over),
        Err(RunFault::NoMemory) => Err(PageFault::NoMemory),
    }
}

/// Writes what the blocks of a script write where it stands, with what is put in.
#[cycle(page)]
pub(crate) fn write_blocks(
    page: &mut PageText,
    alloc: Global,
    templates: &mut Templates,
    setting: &Setting,
    blocks: &Blocks,
) -> Result<(), PageFault>
    requires kept { AreReadings setting.now.content.now templates.old }
    ensures page { Gathered setting.now.waiting result page.old page.new (parts_page (inclusion_in setting.now) (parts_in setting.now blocks.now)) }
    ensures kept { AreReadings setting.now.content.now templates.new }
{
    let scope = scope_in(setting);
    let list = pieces(alloc, &scope, blocks)?;
    page.count_rounds(list.rounds())?;
    let least = least_of(&list);
    page.needs_room(setting.waiting.beside(least))?;
    write_pieces(page, alloc, templates, setting, &list, least)
}

#[cycle(page)]
fn write_pieces(
    page: &mut PageText,
    alloc: Global,
    templates: &mut Templates,
    setting: &Setting,
    list: &PieceList,
    least: Waiting,
) -> Result<(), PageFault>
    requires kept { AreReadings setting.now.content.now templates.old }
    requires least { IsLeastOf least list.now.parts }
    ensures page { Gathered setting.now.waiting result page.old page.new (parts_page (inclusion_in setting.now) list.now.parts) }
    ensures kept { AreReadings setting.now.content.now templates.new }
{
    let mut left = least;
    for piece in list.pieces() {
        left = left.without(size_of_piece(piece));
        let inner = Setting {
            waiting: setting.waiting.beside(left),
            ..*setting
        };
        write_piece(page, alloc, templates, &inner, list, piece)?;
    }
    Ok(())
}

#[cycle(page)]
fn write_piece<'l>(
    page: &mut PageText,
    alloc: Global,
    templates: &mut Templates,
    setting: &Setting,
    list: &PieceList<'l>,
    piece: &Piece<'l>,
) -> Result<(), PageFault>
    requires kept { AreReadings setting.now.content.now templates.old }
    ensures page { Gathered setting.now.waiting result page.old page.new (parts_page (inclusion_in setting.now) (piece_parts list.now.scope piece.now)) }
    ensures kept { AreReadings setting.now.content.now templates.new }
{
    match piece {
        Piece::Text(text) => page.push(text.text()),
        Piece::Script(name, frame) => {
            page.count_inclusion()?;
            let owned = list.variables(alloc, frame)?;
            let pairs = owned.lent(alloc)?;
            let vars = Variables::Pairs(pairs.as_slice());
            include_script(page, alloc, templates, setting, name.text(), &vars)
        }
        Piece::Resource(name) => {
            page.count_inclusion()?;
            include_resource(page, alloc, templates, setting, name.text())
        }
    }
}

// Puts in the script of a name, on the same resource.
#[cycle(page)]
fn include_script(
    page: &mut PageText,
    alloc: Global,
    templates: &mut Templates,
    setting: &Setting,
    name: &str,
    vars: &Variables,
) -> Result<(), PageFault>
    requires kept { AreReadings setting.now.content.now templates.old }
    ensures page { Gathered setting.now.waiting result page.old page.new (inclusion_in setting.now (part.Script name.now (vars_of vars.now))) }
    ensures kept { AreReadings setting.now.content.now templates.new }
{
    if setting.levels == 0 {
        return Err(PageFault::Over);
    }
    let folder = setting.script.parent(alloc)?;
    let Some(script) = path_named(alloc, &folder, name)? else {
        return Ok(());
    };
    let inner = Setting {
        script: &script,
        vars: &*vars,
        levels: setting.levels - 1,
        ..*setting
    };
    write_script(page, alloc, templates, &inner)
}

// Puts in the resource of a name, by its first script.
#[cycle(page)]
fn include_resource(
    page: &mut PageText,
    alloc: Global,
    templates: &mut Templates,
    setting: &Setting,
    name: &str,
) -> Result<(), PageFault>
    requires kept { AreReadings setting.now.content.now templates.old }
    ensures page { Gathered setting.now.waiting result page.old page.new (inclusion_in setting.now (part.Resource name.now)) }
    ensures kept { AreReadings setting.now.content.now templates.new }
{
    if setting.levels == 0 {
        return Err(PageFault::Over);
    }
    let Some(path) = path_named(alloc, setting.path, name)? else {
        return Ok(());
    };
    let Some(res) = merged_alone(alloc, setting.content.tree(), &path)? else {
        return Ok(());
    };
    let Some(script) = html_script(alloc, setting.content, &res)? else {
        return Ok(());
    };
    let inner = Setting {
        script: &script,
        path: res.path(),
        props: res.props(),
        vars: &Variables::None,
        levels: setting.levels - 1,
        ..*setting
    };
    write_script(page, alloc, templates, &inner)
}

// Writes what a script writes where it stands, if it is there and has a reading.
#[cycle(page)]
fn write_script(
    page: &mut PageText,
    alloc: Global,
    templates: &mut Templates,
    setting: &Setting,
) -> Result<(), PageFault>
    requires kept { AreReadings setting.now.content.now templates.old }
    ensures page { Gathered setting.now.waiting result page.old page.new (script_page setting.now) }
    ensures kept { AreReadings setting.now.content.now templates.new }
{
    let Some(blocks) = script_blocks(alloc, setting.content.tree(), templates, setting.script)?
    else {
        return Ok(());
    };
    write_blocks(page, alloc, templates, setting, blocks.get())
}
