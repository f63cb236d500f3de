//! The text that a template writes.

ghost use Rattle.std.specs.Prelude.{◌≡◌, ◌≤◌, ◌++◌, IfOk, IfErr, OnOk, string_bytes, length};
ghost use Rattle.sp_base.specs.Limits.{most_rendered_bytes};
ghost use Rattle.htl_expr.specs.Variables.{seen_by};
ghost use Rattle.htl_text.specs.Template as spec;

use crate::fault::RenderFault;
use crate::piece::TemplatePiece;
use crate::template::Template;
use htl_expr::{Evaluation, Scope, Variables, WriteFault};
use sp_base::{MOST_RENDERED_BYTES, TextBuf};
use std::alloc::Global;

fn push_plain(text: &mut String, most: usize, plain: &str) -> Result<(), RenderFault>
    requires { length (string_bytes text.old) ≤ most }
    ensures ok { OnOk result (spec.Appends most (string_bytes text.old) plain.now (string_bytes text.new)) }
    ensures err { IfErr result (spec.RenderFailsAsTooLongIfMemory most (string_bytes text.old ++ plain.now)) }
{
    if plain.len() > most - text.as_str().len() {
        return Err(RenderFault::TooLong);
    }
    text.push_str(plain)?;
    Ok(())
}

// What a piece writes, where there is room for it.
fn push_piece<'v, 'a: 'v>(
    text: &mut String,
    alloc: Global,
    of: &mut Evaluation<'a>,
    vars: &'v Variables<'v>,
    piece: &'v TemplatePiece,
    most: usize,
) -> Result<(), RenderFault>
    requires { length (string_bytes text.old) ≤ most }
    ensures ok { OnOk result (spec.Appends most (string_bytes text.old) (spec.piece_text (seen_by of.old vars.now) piece.now) (string_bytes text.new)) }
    ensures err { IfErr result (spec.RenderFailsAsTooLongIfMemory most (string_bytes text.old ++ spec.piece_text (seen_by of.old vars.now) piece.now)) }
    ensures resource { of.new ≡ of.old }
{
    match piece {
        TemplatePiece::Plain(plain) => push_plain(text, most, plain.text()),
        TemplatePiece::Value(expression) => match expression.write(text, alloc, of, vars, most) {
            Ok(()) => Ok(()),
            Err(WriteFault::TooLong) => Err(RenderFault::TooLong),
            Err(WriteFault::NoMemory) => Err(RenderFault::NoMemory),
        },
    }
}

impl Template {
    /// Writes what the template writes for a resource and variables after what a text has, if they have at most `most` bytes together.
    /// A text that isn't written whole may be written in part.
    pub fn write<'v, 'a: 'v>(
        &'v self,
        text: &mut String,
        alloc: Global,
        of: &mut Evaluation<'a>,
        vars: &'v Variables<'v>,
        most: usize,
    ) -> Result<(), RenderFault>
        ensures ok { OnOk result (spec.Appends most (string_bytes text.old) (spec.template_output (seen_by of.old vars.now) self.now) (string_bytes text.new)) }
        ensures err { IfErr result (spec.RenderFailsAsTooLongIfMemory most (string_bytes text.old ++ spec.template_output (seen_by of.old vars.now) self.now)) }
        ensures resource { of.new ≡ of.old }
    {
        if text.as_str().len() > most {
            return Err(RenderFault::TooLong);
        }
        for piece in self.pieces.as_slice() {
            match push_piece(text, alloc, of, vars, piece, most) {
                Ok(()) => {}
                Err(fault) => return Err(fault),
            }
        }
        Ok(())
    }

    /// The text that the template writes for a resource, where it has at most 4,194,304 bytes.
    pub fn render<'a>(&'a self, alloc: Global, scope: &Scope<'a>) -> Result<TextBuf, RenderFault>
        ensures ok { IfOk result (λ text. (text ≡ spec.template_output scope.now self.now) × (length text ≤ most_rendered_bytes)) }
        ensures err { IfErr result (spec.RenderFailsAsTooLongIfMemory most_rendered_bytes (spec.template_output scope.now self.now)) }
    {
        let mut text = String::new(alloc);
        let mut resource = Evaluation::of(alloc, scope);
        let vars = scope.variables();
        match self.write(&mut text, alloc, &mut resource, vars, MOST_RENDERED_BYTES) {
            Ok(()) => Ok(TextBuf::from(text)),
            Err(fault) => Err(fault),
        }
    }
}
