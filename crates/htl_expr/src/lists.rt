//! How stored lists are printed.

ghost use Rattle.std.specs.Prelude.{◌≡◌, ◌≤◌, ◌++◌, IfOk, string_bytes, map, length};
ghost use Rattle.std.specs.Fmt.{signed_decimal};
ghost use Rattle.htl_expr.specs.Print as spec;
ghost use Rattle.htl_expr.specs.Print.{truth_text};
ghost use Rattle.htl_expr.specs.Writing.{Wrote, itself};

use crate::escape::push;
use crate::room::WriteFault;
use htl_syntax::Context;
use sp_base::{Mem, TextBuf};
use std::alloc::Global;

pub(crate) fn truth_text(truth: bool) -> &'static str
    ensures { result.now ≡ spec.truth_text truth }
{
    if truth { "true" } else { "false" }
}

pub(crate) fn long_text(alloc: Global, number: i64) -> Mem<TextBuf>
    ensures { IfOk result (λ text. text ≡ signed_decimal number) }
{
    Ok(TextBuf::from(format!(in alloc; "{number}")?))
}

/// What stands before an item, and its text.
#[tactic(auto, using(crate::proofs::EscapeLemmas::in_context_append))]
pub(crate) fn push_next(
    text: &mut String,
    most: usize,
    context: Option<Context>,
    before: &str,
    next: &str,
) -> Result<(), WriteFault>
    requires { length (string_bytes text.old) ≤ most }
    ensures { Wrote most result (string_bytes text.old) (spec.in_context context (before.now ++ next.now)) (string_bytes text.new) }
{
    push(text, most, context, before)?;
    push(text, most, context, next)
}

fn push_next_text(
    text: &mut String,
    most: usize,
    context: Option<Context>,
    before: &str,
    item: &TextBuf,
) -> Result<(), WriteFault>
    requires { length (string_bytes text.old) ≤ most }
    ensures { Wrote most result (string_bytes text.old) (spec.in_context context (before.now ++ itself item.now)) (string_bytes text.new) }
{
    push_next(text, most, context, before, item.text())
}

/// Writes a list, with a join text between each two items.
pub(crate) fn push_texts(
    text: &mut String,
    most: usize,
    context: Option<Context>,
    join: &str,
    items: &[TextBuf],
) -> Result<(), WriteFault>
    requires { length (string_bytes text.old) ≤ most }
    ensures { Wrote most result (string_bytes text.old) (spec.in_context context (spec.concatenation join.now (map itself items.now))) (string_bytes text.new) }
{
    let mut before = "";
    for item in items {
        push_next_text(text, most, context, before, item)?;
        before = join;
    }
    Ok(())
}

fn push_next_long(
    text: &mut String,
    alloc: Global,
    most: usize,
    context: Option<Context>,
    before: &str,
    item: &i64,
) -> Result<(), WriteFault>
    requires { length (string_bytes text.old) ≤ most }
    ensures { Wrote most result (string_bytes text.old) (spec.in_context context (before.now ++ signed_decimal item.now)) (string_bytes text.new) }
{
    push_next(text, most, context, before, long_text(alloc, *item)?.text())
}

/// Writes a list, with a join text between each two items.
pub(crate) fn push_longs(
    text: &mut String,
    alloc: Global,
    most: usize,
    context: Option<Context>,
    join: &str,
    items: &[i64],
) -> Result<(), WriteFault>
    requires { length (string_bytes text.old) ≤ most }
    ensures { Wrote most result (string_bytes text.old) (spec.in_context context (spec.joined_numbers join.now items.now)) (string_bytes text.new) }
{
    let mut before = "";
    for item in items {
        push_next_long(text, alloc, most, context, before, item)?;
        before = join;
    }
    Ok(())
}

fn push_next_truth(
    text: &mut String,
    most: usize,
    context: Option<Context>,
    before: &str,
    item: &bool,
) -> Result<(), WriteFault>
    requires { length (string_bytes text.old) ≤ most }
    ensures { Wrote most result (string_bytes text.old) (spec.in_context context (before.now ++ truth_text item.now)) (string_bytes text.new) }
{
    push_next(text, most, context, before, truth_text(*item))
}

/// Writes a list, with a join text between each two items.
pub(crate) fn push_truths(
    text: &mut String,
    most: usize,
    context: Option<Context>,
    join: &str,
    items: &[bool],
) -> Result<(), WriteFault>
    requires { length (string_bytes text.old) ≤ most }
    ensures { Wrote most result (string_bytes text.old) (spec.in_context context (spec.concatenation join.now (map truth_text items.now))) (string_bytes text.new) }
{
    let mut before = "";
    for item in items {
        push_next_truth(text, most, context, before, item)?;
        before = join;
    }
    Ok(())
}
