//! What the values of statements give.

ghost use Rattle.std.specs.Prelude.{◌≡◌, IfOk};
ghost use Rattle.htl_expr.specs.Bindings.{with_vars};
ghost use Rattle.htl_expr.specs.Value.{is_true, list_in, unescaped_text};
ghost use Rattle.htl_expr.specs.Variables.{vars_of};
ghost use Rattle.htl_blocks.specs.Written as spec;

use crate::attribute::Unwrap;
use htl_expr::{Evaluation, Expr, Listed, Variables, WriteFault};
use htl_text::{Template, TemplatePiece};
use sp_base::{Mem, NoMemory, TextBuf};
use std::alloc::Global;

/// How many bytes the text of a path has at most: 64 segments of 200 bytes, each after a slash.
const LONGEST_NAME: usize = 12_864;

/// Whether a value is true.
pub fn holds<'v, 'a: 'v>(
    alloc: Global,
    of: &mut Evaluation<'a>,
    vars: &'v Variables<'v>,
    value: &'v Template,
) -> Mem<bool>
    ensures truth { IfOk result (λ truth. truth ≡ is_true (spec.statement_value (with_vars of.old (vars_of vars.now)) value.now)) }
    ensures resource { of.new ≡ of.old }
{
    match value.pieces() {
        [] => Ok(false),
        [TemplatePiece::Plain(text), ..] => Ok(!text.text().is_empty()),
        [TemplatePiece::Value(expression), ..] => expression.is_true(alloc, of, vars),
    }
}

/// The items of a value that is a list.
pub fn listed<'v, 'a: 'v>(
    alloc: Global,
    of: &mut Evaluation<'a>,
    vars: &'v Variables<'v>,
    value: &'v Template,
) -> Mem<Option<Listed<'v>>>
    ensures items { IfOk result (λ items. items ≡ list_in (spec.statement_value (with_vars of.old (vars_of vars.now)) value.now)) }
    ensures resource { of.new ≡ of.old }
{
    match value.pieces() {
        [] => Ok(None),
        [TemplatePiece::Plain(_), ..] => Ok(None),
        [TemplatePiece::Value(expression), ..] => expression.listed(alloc, of, vars),
    }
}

// A text as a name.
fn name_in(alloc: Global, text: &str) -> Mem<TextBuf>
    ensures { IfOk result (λ name. name ≡ spec.name_in text.now) }
{
    if text.len() > LONGEST_NAME {
        TextBuf::of(alloc, "")
    } else {
        TextBuf::of(alloc, text)
    }
}

// The name that an expression gives. Of a longer text no more than a name's bytes are taken.
fn expression_name<'v, 'a: 'v>(
    alloc: Global,
    of: &mut Evaluation<'a>,
    vars: &'v Variables<'v>,
    expression: &'v Expr,
) -> Mem<TextBuf>
    ensures name { IfOk result (λ name. name ≡ spec.name_in (unescaped_text (with_vars of.old (vars_of vars.now)) expression.now)) }
    ensures resource { of.new ≡ of.old }
{
    match expression.unescaped(alloc, of, vars, LONGEST_NAME) {
        Ok(text) => Ok(text),
        Err(WriteFault::TooLong) => TextBuf::of(alloc, ""),
        Err(WriteFault::NoMemory) => Err(NoMemory),
    }
}

/// The name of a script or a resource that a value gives.
pub fn name<'v, 'a: 'v>(
    alloc: Global,
    of: &mut Evaluation<'a>,
    vars: &'v Variables<'v>,
    value: &'v Template,
) -> Mem<TextBuf>
    ensures name { IfOk result (λ name. name ≡ spec.statement_name (with_vars of.old (vars_of vars.now)) value.now) }
    ensures resource { of.new ≡ of.old }
{
    match value.pieces() {
        [] => name_in(alloc, ""),
        [TemplatePiece::Plain(text), ..] => name_in(alloc, text.text()),
        [TemplatePiece::Value(expression), ..] => expression_name(alloc, of, vars, expression),
    }
}

/// Whether an element with this test stands.
pub fn passes<'v, 'a: 'v>(
    alloc: Global,
    of: &mut Evaluation<'a>,
    vars: &'v Variables<'v>,
    test: &'v Option<Template>,
) -> Mem<bool>
    ensures passes { IfOk result (λ passes. passes ≡ spec.passes (with_vars of.old (vars_of vars.now)) test.now) }
    ensures resource { of.new ≡ of.old }
{
    match test {
        None => Ok(true),
        Some(value) => holds(alloc, of, vars, value),
    }
}

/// Whether the tags of an element stand.
pub fn keeps_tags<'v, 'a: 'v>(
    alloc: Global,
    of: &mut Evaluation<'a>,
    vars: &'v Variables<'v>,
    unwrap: &'v Option<Unwrap>,
) -> Mem<bool>
    ensures keeps { IfOk result (λ keeps. keeps ≡ spec.keeps_tags (with_vars of.old (vars_of vars.now)) unwrap.now) }
    ensures resource { of.new ≡ of.old }
{
    match unwrap {
        None => Ok(true),
        Some(Unwrap::Always) => Ok(false),
        Some(Unwrap::Where(value)) => Ok(!holds(alloc, of, vars, value)?),
    }
}
