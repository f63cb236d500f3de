//! A script's text while it is written.

ghost use Rattle.std.specs.Prelude.{◌≡◌, ◌≢◌, ◌≤◌, ◌∷◌, [], ◌++◌, true, IfOk, IfErr, OnOk, length, string_bytes};
ghost use Rattle.sp_base.specs.Limits.{most_rendered_bytes};
ghost use Rattle.htl_expr.specs.Bindings.{with_vars};
ghost use Rattle.htl_expr.specs.Value.{list_in};
ghost use Rattle.htl_expr.specs.Variables.{vars_of};
ghost use Rattle.htl_text.specs.Template.{template_output};
ghost use Rattle.htl_blocks.specs.Parts as part;
ghost use Rattle.htl_blocks.specs.Pieces.{piece_parts, pieces_parts, puts_in, IsWithinLimits};
ghost use Rattle.htl_blocks.specs.Settings.{IsSettingIn};
ghost use Rattle.htl_blocks.specs.Refused.{most_inclusions, most_rounds};
ghost use Rattle.htl_blocks.specs.Sheets as spec;
ghost use Rattle.htl_blocks.specs.Written as written;
ghost use Rattle.htl_blocks.specs.SettingParts.{script_for_setting};

use crate::attribute::Unwrap;
use crate::bounded_pieces::BoundedPieces;
use crate::keeping::Keeping;
use crate::piece::Piece;
use crate::piece_list::PieceList;
use crate::run_fault::RunFault;
use crate::setting::Setting;
use crate::statement_value;
use crate::statement_value::name;
use htl_expr::{Evaluation, Listed, Scope, Variables};
use htl_text::{RenderFault, Template};
use sp_base::Mem;
use std::alloc::Global;
use std::marker::Model;
use std::mem;

const MOST_ROUNDS: usize = 1_000_000;

/// What was written, piece by piece, and the text after the last of them. Contracts see the parts that they stand for.
#[derive(Drop)]
pub struct Sheet<'a> {
    of: Evaluation<'a>,
    keeping: Keeping,
    pieces: BoundedPieces<'a>,
    tail: String,
    rounds: usize,
}

impl<'a> Model for Sheet<'a> {
    ghost use Rattle.std.specs.Prelude.{◌≤◌, ◌+◌, ◌++◌, length, string_bytes};
    ghost use Rattle.sp_base.specs.Limits.{most_rendered_bytes};
    ghost use Rattle.htl_blocks.specs.Parts.{text_parts};
    ghost use Rattle.htl_blocks.specs.Refused.{most_rounds};
    ghost use Rattle.htl_blocks.specs.Pieces.{pieces_parts, text_len};
    ghost use Rattle.htl_blocks.specs.Sheets.{SheetText};

    ghost Value = { SheetText };

    ghost view = { λ s. record { scope = s.of; keeping = s.keeping; parts = pieces_parts s.of s.pieces ++ text_parts (string_bytes s.tail); rounds = s.rounds } };

    ghost invariant = { λ s. (s.rounds ≤ most_rounds) × (text_len s.pieces + length (string_bytes s.tail) ≤ most_rendered_bytes) };
}

// Adds a text to another, where both have room.
fn push_within(text: &mut String, room: usize, more: &str) -> Result<(), RunFault>
    ensures ok { OnOk result (string_bytes text.new ≡ string_bytes text.old ++ more.now) }
    ensures err { IfErr result (spec.RunFailsAsTooLongIfMemory room (string_bytes text.old ++ more.now)) }
    ensures room { length (string_bytes text.old) ≤ room → length (string_bytes text.new) ≤ room }
{
    let len = text.as_str().len();
    if len > room || more.len() > room - len {
        return Err(RunFault::TooLong);
    }
    text.push_str(more)?;
    Ok(())
}

// Adds what a template writes to a text, where both have room. Else no text is left, so that none is too long.
fn push_template<'v, 'a: 'v>(
    text: &mut String,
    alloc: Global,
    of: &mut Evaluation<'a>,
    vars: &'v Variables<'v>,
    template: &'v Template,
    room: usize,
) -> Result<(), RunFault>
    ensures ok { OnOk result (string_bytes text.new ≡ string_bytes text.old ++ template_output (with_vars of.old (vars_of vars.now)) template.now) }
    ensures err { IfErr result (spec.RunFailsAsTooLongIfMemory room (string_bytes text.old ++ template_output (with_vars of.old (vars_of vars.now)) template.now)) }
    ensures room { length (string_bytes text.new) ≤ room }
    ensures resource { of.new ≡ of.old }
{
    match template.write(text, alloc, of, vars, room) {
        Ok(()) => Ok(()),
        Err(RenderFault::TooLong) => {
            text.clear();
            Err(RunFault::TooLong)
        }
        Err(RenderFault::NoMemory) => {
            text.clear();
            Err(RunFault::NoMemory)
        }
    }
}

impl<'a> Sheet<'a> {
    pub fn new(alloc: Global, scope: &Scope<'a>, keeping: Keeping) -> Sheet<'a>
        ensures { result ≡ spec.empty_sheet scope.now keeping }
    {
        Sheet {
            of: Evaluation::of(alloc, scope),
            keeping,
            pieces: BoundedPieces::new(alloc),
            tail: String::new(alloc),
            rounds: 0,
        }
    }

    /// Writes a text.
    pub fn push(&mut self, text: &str) -> Result<(), RunFault>
        ensures { spec.WroteParts result self.old self.new (part.text_parts text.now) }
    {
        let room = self.pieces.room();
        push_within(&mut self.tail, room, text)
    }

    /// Begins a round.
    pub fn begin_round(&mut self) -> Result<(), RunFault>
        ensures parts { spec.WroteParts result self.old self.new (part.Round ∷ []) }
        ensures within { OnOk result (self.new.rounds ≤ most_rounds) }
    {
        if self.rounds >= MOST_ROUNDS {
            return Err(RunFault::TooMany);
        }
        self.rounds += 1;
        Ok(())
    }

    // Adds a piece that is put in from elsewhere, and the text before it as a piece.
    fn include_kept(&mut self, alloc: Global, piece: Piece<'a>) -> Result<(), RunFault>
        requires piece { puts_in piece ≡ true }
        requires keeping { self.old.keeping ≡ Keeping.All }
        ensures { spec.WroteParts result self.old self.new (piece_parts self.old.scope piece.entry) }
    {
        let text = mem::replace(&mut self.tail, String::new(alloc));
        self.pieces.push_text(text)?;
        self.pieces.push_inclusion(piece)
    }

    // Adds a piece that is put in from elsewhere, if anything but the text is kept.
    #[tactic(auto, using(crate::proofs::SheetSteps::not_kept))]
    fn include(&mut self, alloc: Global, piece: Piece<'a>) -> Result<(), RunFault>
        requires { puts_in piece ≡ true }
        ensures { spec.WroteParts result self.old self.new (piece_parts self.old.scope piece.entry) }
    {
        match self.keeping {
            Keeping::TextAlone => Ok(()),
            Keeping::All => self.include_kept(alloc, piece),
        }
    }
}

/// Writes what a template writes.
pub fn write<'v, 'a: 'v>(
    sheet: &mut Sheet<'a>,
    alloc: Global,
    vars: &'v Variables<'v>,
    template: &'v Template,
) -> Result<(), RunFault>
    ensures { spec.WroteParts result sheet.old sheet.new (part.text_parts (template_output (with_vars sheet.old.scope (vars_of vars.now)) template.now)) }
{
    let room = sheet.pieces.room();
    push_template(&mut sheet.tail, alloc, &mut sheet.of, vars, template, room)
}

/// Puts in the text of the script that a value names, with the variables of the setting.
pub fn include_script<'v, 'a: 'v>(
    sheet: &mut Sheet<'a>,
    alloc: Global,
    setting: &Setting<'v, 'a>,
    value: &'v Template,
) -> Result<(), RunFault>
    requires { IsSettingIn sheet.old.scope setting.now }
    ensures { spec.WroteParts result sheet.old sheet.new (script_for_setting sheet.old.scope setting.now value.now) }
{
    let name = name(alloc, &mut sheet.of, setting.vars, value)?;
    let frame = setting.frame.duplicate(alloc)?;
    sheet.include(alloc, Piece::Script(name, frame))
}

/// Puts in the text of the resource that a value names.
pub fn include_resource<'v, 'a: 'v>(
    sheet: &mut Sheet<'a>,
    alloc: Global,
    vars: &'v Variables<'v>,
    value: &'v Template,
) -> Result<(), RunFault>
    ensures { spec.WroteParts result sheet.old sheet.new (part.Resource (written.statement_name (with_vars sheet.old.scope (vars_of vars.now)) value.now) ∷ []) }
{
    let name = name(alloc, &mut sheet.of, vars, value)?;
    sheet.include(alloc, Piece::Resource(name))
}

/// Whether an element with this test stands.
pub fn passes<'v, 'a: 'v>(
    sheet: &mut Sheet<'a>,
    alloc: Global,
    vars: &'v Variables<'v>,
    test: &'v Option<Template>,
) -> Mem<bool>
    ensures passes { IfOk result (λ passes. passes ≡ written.passes (with_vars sheet.old.scope (vars_of vars.now)) test.now) }
    ensures sheet { sheet.new ≡ sheet.old }
{
    statement_value::passes(alloc, &mut sheet.of, vars, test)
}

/// Whether the tags of an element stand.
pub fn keeps_tags<'v, 'a: 'v>(
    sheet: &mut Sheet<'a>,
    alloc: Global,
    vars: &'v Variables<'v>,
    unwrap: &'v Option<Unwrap>,
) -> Mem<bool>
    ensures keeps { IfOk result (λ keeps. keeps ≡ written.keeps_tags (with_vars sheet.old.scope (vars_of vars.now)) unwrap.now) }
    ensures sheet { sheet.new ≡ sheet.old }
{
    statement_value::keeps_tags(alloc, &mut sheet.of, vars, unwrap)
}

/// The items of a value that is a list.
pub fn listed<'v, 'a: 'v>(
    sheet: &mut Sheet<'a>,
    alloc: Global,
    vars: &'v Variables<'v>,
    value: &'v Template,
) -> Mem<Option<Listed<'v>>>
    ensures items { IfOk result (λ items. items ≡ list_in (written.statement_value (with_vars sheet.old.scope (vars_of vars.now)) value.now)) }
    ensures sheet { sheet.new ≡ sheet.old }
{
    statement_value::listed(alloc, &mut sheet.of, vars, value)
}

// The same resource and variables.
fn same_scope<'a>(scope: &Scope<'a>) -> Scope<'a>
    ensures { result ≡ scope.now }
{
    Scope {
        props: scope.props,
        path: scope.path,
        name: scope.name,
        resource_type: scope.resource_type,
        vars: scope.vars,
    }
}

// Pieces as a list, for this resource.
fn list_of<'a>(scope: &Scope<'a>, pieces: BoundedPieces<'a>, rounds: usize) -> PieceList<'a>
    ensures scope { result.scope ≡ scope.now }
    ensures parts { result.parts ≡ pieces_parts scope.now pieces.entry }
    ensures rounds { result.rounds ≡ rounds }
    ensures text { length (part.text_of_parts result.parts) ≤ most_rendered_bytes }
    ensures inclusions { part.inclusions result.parts ≤ most_inclusions }
{
    let all = pieces.into_pieces();
    PieceList {
        scope: same_scope(scope),
        pieces: all,
        rounds,
    }
}

/// What was written. It isn't too long, as each text was looked at before it was added.
pub fn finished<'a>(sheet: Sheet<'a>, scope: &Scope<'a>) -> Result<PieceList<'a>, RunFault>
    requires { scope.now ≡ sheet.scope }
    ensures parts { IfOk result (λ l. (l.scope ≡ sheet.entry.scope) × (l.parts ≡ sheet.entry.parts) × (l.rounds ≡ sheet.entry.rounds)) }
    ensures fits { IfOk result IsWithinLimits }
    ensures err { IfErr result (λ f. f ≡ RunFault.NoMemory) }
{
    let Sheet {
        of: _,
        keeping: _,
        mut pieces,
        tail,
        rounds,
    } = sheet;
    pieces.push_text(tail)?;
    Ok(list_of(scope, pieces, rounds))
}
