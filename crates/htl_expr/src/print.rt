//! How a value is printed.

ghost use Rattle.std.specs.Prelude.{◌≡◌, ◌≤◌, ◌++◌, [], IfOk, IfErr, OnOk, OnErr, string_bytes, map, length};
ghost use Rattle.htl_expr.specs.Lent.{out_of_lent, plain_item, IsOperand, plain_lent};
ghost use Rattle.htl_expr.specs.Print as spec;
ghost use Rattle.htl_expr.specs.Value.{unescaped_text, print};
ghost use Rattle.htl_expr.specs.Variables.{seen_by};
ghost use Rattle.htl_expr.specs.Writing.{Wrote, WroteAs, WriteFailsAsTooLongIfMemory, IsWrittenWithin};

use crate::empty_join::push_joined;
use crate::escape::{Writing, push};
use crate::evaluation::Evaluation;
use crate::expression::Expr;
use crate::lent::{Lent, Operand};
use crate::lists::{long_text, push_longs, push_texts, push_truths, truth_text};
use crate::room::WriteFault;
use crate::scope::Scope;
use crate::value::value;
use crate::variables::Variables;
use htl_syntax::Context;
use sp_base::{Mem, NoMemory, TextBuf};
use std::alloc::Global;

// What stands before an item of a list literal, and its text.
#[cycle(print)]
#[tactic(auto, using(crate::proofs::EscapeLemmas::in_context_append))]
fn push_next_item(
    text: &mut String,
    alloc: Global,
    most: usize,
    context: Option<Context>,
    before: &str,
    item: &Lent,
) -> Result<(), WriteFault>
    requires { length (string_bytes text.old) ≤ most }
    ensures { Wrote most result (string_bytes text.old) (spec.in_context context (before.now ++ plain_item item.now)) (string_bytes text.new) }
{
    push(text, most, context, before)?;
    push_value(text, alloc, most, context, ",", item)
}

// A list literal, with a join text between each two items.
#[cycle(print)]
fn push_items(
    text: &mut String,
    alloc: Global,
    most: usize,
    context: Option<Context>,
    join: &str,
    items: &[Lent],
) -> Result<(), WriteFault>
    requires { length (string_bytes text.old) ≤ most }
    ensures { Wrote most result (string_bytes text.old) (spec.in_context context (spec.concatenation join.now (map plain_item items.now))) (string_bytes text.new) }
{
    let mut before = "";
    for item in items {
        push_next_item(text, alloc, most, context, before, item)?;
        before = join;
    }
    Ok(())
}

/// Writes a value within a limit, with a join text between the items of a list.
#[cycle(print)]
#[tactic(auto, using(crate::proofs::EscapeLemmas::in_context_none, crate::proofs::Chains::items_out, crate::proofs::Chains::texts_are))]
pub(crate) fn push_value(
    text: &mut String,
    alloc: Global,
    most: usize,
    context: Option<Context>,
    join: &str,
    value: &Lent,
) -> Result<(), WriteFault>
    requires { length (string_bytes text.old) ≤ most }
    ensures { Wrote most result (string_bytes text.old) (spec.in_context context (spec.plain join.now (out_of_lent value.now))) (string_bytes text.new) }
{
    match value {
        Lent::Nothing => Ok(()),
        Lent::Truth(truth) => push(text, most, context, truth_text(*truth)),
        Lent::Long(number) => push(text, most, context, long_text(alloc, *number)?.text()),
        Lent::Text(plain) => push(text, most, context, plain),
        Lent::Texts(texts) => push_texts(text, most, context, join, texts.as_slice()),
        Lent::Longs(numbers) => push_longs(text, alloc, most, context, join, numbers.as_slice()),
        Lent::Truths(truths) => push_truths(text, most, context, join, truths.as_slice()),
        Lent::Items(items) => push_items(text, alloc, most, context, join, items.as_slice()),
    }
}

// Items with nothing between them may write nothing, so that a property's are put together once.
#[tactic(auto, using(crate::proofs::Chains::items_out))]
fn push_closed(
    text: &mut String,
    alloc: Global,
    scope: &mut Evaluation,
    writing: Writing,
    operand: &Operand,
) -> Result<(), WriteFault>
    requires room { length (string_bytes text.old) ≤ writing.most }
    requires operand { IsOperand scope.old operand.now }
    ensures text { WroteAs writing result (string_bytes text.old) (spec.plain [] (out_of_lent operand.now.value)) (string_bytes text.new) }
    ensures scope { scope.new ≡ scope.old }
{
    match (operand.property, &operand.value) {
        (Some(name), Lent::Texts(items)) => {
            push_joined(text, alloc, scope, writing, name, items.as_slice())
        }
        _ => push_value(
            text,
            alloc,
            writing.most,
            writing.context,
            "",
            &operand.value,
        ),
    }
}

// Writes what an expression gives.
fn push_operand(
    text: &mut String,
    alloc: Global,
    scope: &mut Evaluation,
    writing: Writing,
    join: &str,
    operand: &Operand,
) -> Result<(), WriteFault>
    requires room { length (string_bytes text.old) ≤ writing.most }
    requires operand { IsOperand scope.old operand.now }
    ensures text { WroteAs writing result (string_bytes text.old) (plain_lent join.now operand.now.value) (string_bytes text.new) }
    ensures scope { scope.new ≡ scope.old }
{
    if join.is_empty() {
        push_closed(text, alloc, scope, writing, operand)
    } else {
        push_value(
            text,
            alloc,
            writing.most,
            writing.context,
            join,
            &operand.value,
        )
    }
}

fn join_text(join: &Option<TextBuf>) -> &str
    ensures { result.now ≡ spec.join_text join.now }
{
    match join {
        Some(text) => text.text(),
        None => ",",
    }
}

impl Expr {
    // Writes the value in a context after what a text has that is within the limit.
    #[tactic(auto, using(crate::proofs::EscapeLemmas::in_context_none))]
    pub(crate) fn push_in<'v, 'a: 'v>(
        &'v self,
        text: &mut String,
        alloc: Global,
        of: &mut Evaluation<'a>,
        vars: &'v Variables<'v>,
        writing: Writing,
    ) -> Result<(), WriteFault>
        requires { length (string_bytes text.old) ≤ writing.most }
        ensures text { WroteAs writing result (string_bytes text.old) (unescaped_text (seen_by of.old vars.now) self.now) (string_bytes text.new) }
        ensures resource { of.new ≡ of.old }
    {
        match &self.expression.node {
            Some(node) => {
                let operand = value(alloc, of, vars, node)?;
                let join = join_text(&self.expression.join);
                push_operand(text, alloc, of, writing, join, &operand)
            }
            None => Ok(()),
        }
    }

    /// Writes what the expression prints for a resource and variables after what a text has, if they have at most `most` bytes together.
    pub fn write<'v, 'a: 'v>(
        &'v self,
        text: &mut String,
        alloc: Global,
        of: &mut Evaluation<'a>,
        vars: &'v Variables<'v>,
        most: usize,
    ) -> Result<(), WriteFault>
        ensures ok { OnOk result (IsWrittenWithin most (string_bytes text.old) (print (seen_by of.old vars.now) self.now) (string_bytes text.new)) }
        ensures err { IfErr result (WriteFailsAsTooLongIfMemory most (string_bytes text.old ++ print (seen_by of.old vars.now) self.now)) }
        // A text that isn't written whole isn't written in part.
        ensures kept { OnErr result (string_bytes text.new ≡ string_bytes text.old) }
        ensures resource { of.new ≡ of.old }
    {
        let len = text.as_str().len();
        if len > most {
            return Err(WriteFault::TooLong);
        }
        let writing = Writing {
            most,
            context: self.expression.context,
        };
        match self.push_in(text, alloc, of, vars, writing) {
            Ok(()) => Ok(()),
            Err(fault) => {
                text.truncate(len);
                Err(fault)
            }
        }
    }

    /// The text that the expression writes for a resource.
    #[tactic(auto, using(crate::proofs::EscapeLemmas::is_inert_in))]
    pub fn print<'a>(&'a self, alloc: Global, scope: &Scope<'a>) -> Mem<TextBuf>
        ensures exact { IfOk result (λ text. text ≡ print scope.now self.now) }
        // Without the option `context='unsafe'` it begins no tag and ends no attribute's value that stands in quotes.
        ensures inert { IfOk result (spec.IsInert self.now.context) }
    {
        let mut text = String::new(alloc);
        let mut resource = Evaluation::of(alloc, scope);
        match self.write(
            &mut text,
            alloc,
            &mut resource,
            scope.variables(),
            usize::MAX,
        ) {
            Ok(()) => Ok(TextBuf::from(text)),
            Err(_) => Err(NoMemory),
        }
    }
}
