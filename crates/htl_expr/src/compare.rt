//! Comparisons of two values.

ghost use Rattle.std.specs.Prelude.{◌≡◌, ◌&&◌, IfOk, int_le, int_lt, false};
ghost use Rattle.htl_expr.specs.Lent as lent;
ghost use Rattle.htl_expr.specs.Lent.{out_of_lent};
ghost use Rattle.htl_expr.specs.Value as spec;
ghost use Rattle.htl_expr.specs.declared.out.Out.TheVariants as out;

use crate::evaluation::Evaluation;
use crate::lent::{Lent, Operand, is_list};
use crate::literals::has_same_texts;
use htl_syntax::Comparison;
use sp_base::Mem;
use std::alloc::Global;

fn is_below(a: &Lent, b: &Lent) -> bool
    ensures { result ≡ spec.are_ordered int_lt (out_of_lent a.now) (out_of_lent b.now) }
{
    match (a, b) {
        (Lent::Long(a), Lent::Long(b)) => *a < *b,
        _ => false,
    }
}

fn is_at_most(a: &Lent, b: &Lent) -> bool
    ensures { result ≡ spec.are_ordered int_le (out_of_lent a.now) (out_of_lent b.now) }
{
    match (a, b) {
        (Lent::Long(a), Lent::Long(b)) => *a <= *b,
        _ => false,
    }
}

/// Whether a comparison holds between two operands.
pub(crate) fn operands_compare<'v, 'a: 'v>(
    alloc: Global,
    scope: &mut Evaluation<'a>,
    comparison: Comparison,
    a: &Operand<'v>,
    b: &Operand<'v>,
) -> Mem<bool>
    requires first { lent.IsOperand scope.old a.now }
    requires second { lent.IsOperand scope.old b.now }
    ensures holds { IfOk result (λ holds. holds ≡ spec.comparison_holds comparison (out_of_lent a.now.value) (out_of_lent b.now.value)) }
    ensures scope { scope.new ≡ scope.old }
{
    match comparison {
        Comparison::Equal => operands_are_same(alloc, scope, a, b),
        Comparison::NotEqual => Ok(!operands_are_same(alloc, scope, a, b)?),
        Comparison::Below => Ok(is_below(&a.value, &b.value)),
        Comparison::Above => Ok(is_below(&b.value, &a.value)),
        Comparison::AtMost => Ok(is_at_most(&a.value, &b.value)),
        Comparison::AtLeast => Ok(is_at_most(&b.value, &a.value)),
    }
}

// Whether two operands are the same. Properties are compared by their numbers.
fn operands_are_same<'v, 'a: 'v>(
    alloc: Global,
    scope: &mut Evaluation<'a>,
    a: &Operand<'v>,
    b: &Operand<'v>,
) -> Mem<bool>
    requires first { lent.IsOperand scope.old a.now }
    requires second { lent.IsOperand scope.old b.now }
    ensures same { IfOk result (λ same. same ≡ spec.is_same (out_of_lent a.now.value) (out_of_lent b.now.value)) }
    ensures scope { scope.new ≡ scope.old }
{
    match (a.property, b.property) {
        (Some(a), Some(b)) => scope.has_same(alloc, a, b),
        _ => others_are_same(alloc, scope, a, b),
    }
}

// Whether two operands are the same, of which one at least is no property.
#[tactic(auto, using(crate::proofs::SameItems::same_lists))]
fn others_are_same<'v, 'a: 'v>(
    alloc: Global,
    scope: &mut Evaluation<'a>,
    a: &Operand<'v>,
    b: &Operand<'v>,
) -> Mem<bool>
    requires first { lent.IsOperand scope.old a.now }
    requires second { lent.IsOperand scope.old b.now }
    ensures same { IfOk result (λ same. same ≡ spec.is_same (out_of_lent a.now.value) (out_of_lent b.now.value)) }
    ensures scope { scope.new ≡ scope.old }
{
    if are_lists(&a.value, &b.value) {
        has_same_texts(alloc, scope, a, b)
    } else {
        Ok(is_same(&a.value, &b.value))
    }
}

fn are_lists(a: &Lent, b: &Lent) -> bool
    ensures { result ≡ (lent.is_list (out_of_lent a.now) && lent.is_list (out_of_lent b.now)) }
{
    is_list(a) && is_list(b)
}

/// What tells whether two values are the same.
#[derive(Clone, Copy, Drop)]
pub(crate) enum SameBy {
    Items,
    Text,
    /// Whether they are is known.
    Value(bool),
}

/// What tells whether these two are the same.
pub(crate) fn same_by(a: &Lent, b: &Lent) -> SameBy
    ensures { lent.IsToldBy result (out_of_lent a.now) (out_of_lent b.now) }
{
    if are_lists(a, b) {
        SameBy::Items
    } else if is_text(a) && is_text(b) {
        SameBy::Text
    } else {
        SameBy::Value(is_same(a, b))
    }
}

// Whether two values, of which one at least is no list, have the same kind and the same content.
#[tactic(auto, using(crate::proofs::SameItems::same_as_no_list))]
fn is_same(a: &Lent, b: &Lent) -> bool
    requires { (lent.is_list (out_of_lent a.now) && lent.is_list (out_of_lent b.now)) ≡ false }
    ensures { result ≡ spec.is_same (out_of_lent a.now) (out_of_lent b.now) }
{
    if is_list(a) {
        return false;
    }
    match a {
        Lent::Nothing => is_nothing(b),
        Lent::Truth(truth) => is_truth(*truth, b),
        Lent::Long(number) => is_long(*number, b),
        Lent::Text(text) => has_text(text, b),
        _ => false,
    }
}

fn is_text(value: &Lent) -> bool
    ensures { result ≡ lent.is_lent_text (out_of_lent value.now) }
{
    matches!(value, Lent::Text(_))
}

fn is_nothing(value: &Lent) -> bool
    ensures { result ≡ spec.is_same out.Nothing (out_of_lent value.now) }
{
    matches!(value, Lent::Nothing)
}

fn is_truth(truth: bool, value: &Lent) -> bool
    ensures { result ≡ spec.is_same (out.Truth truth) (out_of_lent value.now) }
{
    match value {
        Lent::Truth(other) => truth == *other,
        _ => false,
    }
}

fn is_long(number: i64, value: &Lent) -> bool
    ensures { result ≡ spec.is_same (out.Long number) (out_of_lent value.now) }
{
    match value {
        Lent::Long(other) => number == *other,
        _ => false,
    }
}

fn has_text(text: &str, value: &Lent) -> bool
    ensures { result ≡ spec.is_same (out.Text text.now) (out_of_lent value.now) }
{
    match value {
        Lent::Text(other) => text == *other,
        _ => false,
    }
}
