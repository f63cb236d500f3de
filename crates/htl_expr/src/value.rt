//! The value of a tree.

ghost use Rattle.std.specs.Prelude.{◌≡◌, IfOk, map, not, true, false};
ghost use Rattle.htl_expr.specs.Bindings.{with_vars};
ghost use Rattle.htl_expr.specs.Value as spec;
ghost use Rattle.htl_expr.specs.Variables.{vars_of, seen_by};
ghost use Rattle.htl_expr.specs.Lent.{out_of_lent, plain_item, property_item, listed_texts, is_list, IsOperand};
ghost use Rattle.htl_expr.specs.Pieces.{item_piece_text, AreItemPieces, HavePieces};
ghost use Rattle.htl_expr.specs.declared.out.Out.TheVariants as out;

use crate::compare::operands_compare;
use crate::evaluation::Evaluation;
use crate::expression::Expr;
use crate::lent::{Lent, Operand, is_list, is_true};
use crate::lists::truth_text;
use crate::out::{Out, owned};
use crate::pieces::{ItemPiece, all_pieces, piece_alone};
use crate::scope::{Scope, property, resource};
use crate::variables::{Variables, variable};
use htl_syntax::{Comparison, ExprNode};
use sp_base::{Mem, TextBuf};
use sqlite_items::Items;
use std::alloc::Global;

// The value of an operand, or of those before it if that is false.
#[cycle(value)]
fn and_next<'v, 'a: 'v>(
    alloc: Global,
    scope: &mut Evaluation<'a>,
    vars: &'v Variables<'v>,
    operand: &'v ExprNode,
    last: Operand<'v>,
) -> Mem<Operand<'v>>
    requires { IsOperand scope.old last }
    ensures value { IfOk result (λ v. out_of_lent v.value ≡ spec.and_value (out_of_lent last.entry.value) (spec.value (seen_by scope.old vars.now) operand.now)) }
    ensures operand { IfOk result (IsOperand scope.old) }
    ensures scope { scope.new ≡ scope.old }
{
    if is_true(&last.value) {
        value(alloc, scope, vars, operand)
    } else {
        Ok(last)
    }
}

// The value of the last operand, or of the first that is false.
#[cycle(value)]
fn and_values<'v, 'a: 'v>(
    alloc: Global,
    scope: &mut Evaluation<'a>,
    vars: &'v Variables<'v>,
    more: &'v [ExprNode],
    first: Operand<'v>,
) -> Mem<Operand<'v>>
    requires { IsOperand scope.old first }
    ensures value { IfOk result (λ v. out_of_lent v.value ≡ spec.and_values (out_of_lent first.entry.value) (spec.values (seen_by scope.old vars.now) more.now)) }
    ensures operand { IfOk result (IsOperand scope.old) }
    ensures scope { scope.new ≡ scope.old }
{
    let mut last = first;
    for operand in more {
        last = and_next(alloc, scope, vars, operand, last)?;
    }
    Ok(last)
}

// The value of an operand, or of those before it if that is true.
#[cycle(value)]
fn or_next<'v, 'a: 'v>(
    alloc: Global,
    scope: &mut Evaluation<'a>,
    vars: &'v Variables<'v>,
    operand: &'v ExprNode,
    last: Operand<'v>,
) -> Mem<Operand<'v>>
    requires { IsOperand scope.old last }
    ensures value { IfOk result (λ v. out_of_lent v.value ≡ spec.or_value (out_of_lent last.entry.value) (spec.value (seen_by scope.old vars.now) operand.now)) }
    ensures operand { IfOk result (IsOperand scope.old) }
    ensures scope { scope.new ≡ scope.old }
{
    if is_true(&last.value) {
        Ok(last)
    } else {
        value(alloc, scope, vars, operand)
    }
}

// The value of the last operand, or of the first that is true.
#[cycle(value)]
fn or_values<'v, 'a: 'v>(
    alloc: Global,
    scope: &mut Evaluation<'a>,
    vars: &'v Variables<'v>,
    more: &'v [ExprNode],
    first: Operand<'v>,
) -> Mem<Operand<'v>>
    requires { IsOperand scope.old first }
    ensures value { IfOk result (λ v. out_of_lent v.value ≡ spec.or_values (out_of_lent first.entry.value) (spec.values (seen_by scope.old vars.now) more.now)) }
    ensures operand { IfOk result (IsOperand scope.old) }
    ensures scope { scope.new ≡ scope.old }
{
    let mut last = first;
    for operand in more {
        last = or_next(alloc, scope, vars, operand, last)?;
    }
    Ok(last)
}

// The piece that a value is which is no list.
fn value_piece<'v, 'a: 'v>(scope: &Evaluation<'a>, value: &Lent<'v>) -> ItemPiece<'v>
    requires { is_list (out_of_lent value.now) ≡ false }
    ensures { item_piece_text scope.now result ≡ plain_item value.now }
{
    // Only the contract needs the scope.
    let _ = scope;
    match value {
        Lent::Nothing => ItemPiece::Text(""),
        Lent::Truth(truth) => ItemPiece::Text(truth_text(*truth)),
        Lent::Long(number) => ItemPiece::Long(*number),
        Lent::Text(text) => ItemPiece::Text(text),
        _ => ItemPiece::Text(""),
    }
}

// The pieces of a list literal, which are those of its items. One without items has the empty text.
#[tactic(auto, using(crate::proofs::Items::literal_of_all, crate::proofs::Items::empty_literal))]
fn literal_pieces<'v, 'a: 'v>(
    alloc: Global,
    scope: &Evaluation<'a>,
    literal: &Lent<'v>,
    items: &[Items<ItemPiece<'v>>],
) -> Mem<Items<ItemPiece<'v>>>
    requires list { is_list (out_of_lent literal.now) ≡ true }
    requires items { HavePieces scope.now items.now (listed_texts (out_of_lent literal.now)) }
    ensures { IfOk result (λ pieces. AreItemPieces scope.now pieces (plain_item literal.now)) }
{
    // Only the contract needs the scope.
    let _ = scope;
    if items.is_empty() {
        piece_alone(alloc, ItemPiece::Text(""))
    } else {
        all_pieces(alloc, items)
    }
}

// The pieces of a value that is no property.
#[tactic(auto, using(crate::proofs::PieceLemmas::alone))]
fn pieces_of_value<'v, 'a: 'v>(
    alloc: Global,
    scope: &Evaluation<'a>,
    value: &Lent<'v>,
    items: &[Items<ItemPiece<'v>>],
) -> Mem<Items<ItemPiece<'v>>>
    requires { HavePieces scope.now items.now (listed_texts (out_of_lent value.now)) }
    ensures { IfOk result (λ pieces. AreItemPieces scope.now pieces (plain_item value.now)) }
{
    if is_list(value) {
        return literal_pieces(alloc, scope, value, items);
    }
    piece_alone(alloc, value_piece(scope, value))
}

// A property as a piece.
#[tactic(auto, using(crate::proofs::Items::property_piece))]
fn pieces_of_property<'v, 'a: 'v>(
    alloc: Global,
    scope: &Evaluation<'a>,
    name: &'v TextBuf,
) -> Mem<Items<ItemPiece<'v>>>
    ensures { IfOk result (λ pieces. AreItemPieces scope.now pieces (property_item scope.now name.now)) }
{
    // Only the contract needs the scope.
    let _ = scope;
    piece_alone(alloc, ItemPiece::Property(name))
}

// The pieces of an item of a list literal.
#[tactic(auto, using(crate::proofs::Items::of_property))]
fn pieces_of<'v, 'a: 'v>(
    alloc: Global,
    scope: &Evaluation<'a>,
    item: &Operand<'v>,
) -> Mem<Items<ItemPiece<'v>>>
    requires { IsOperand scope.now item.now }
    ensures { IfOk result (λ pieces. AreItemPieces scope.now pieces (plain_item item.now.value)) }
{
    match item.property {
        Some(name) => pieces_of_property(alloc, scope, name),
        None => pieces_of_value(alloc, scope, &item.value, item.items.as_slice()),
    }
}

// The value of a list literal.
#[cycle(value)]
fn list_value<'v, 'a: 'v>(
    alloc: Global,
    scope: &mut Evaluation<'a>,
    vars: &'v Variables<'v>,
    items: &'v [ExprNode],
) -> Mem<Operand<'v>>
    ensures value { IfOk result (λ v. out_of_lent v.value ≡ out.List (spec.item_texts (map (spec.value (seen_by scope.old vars.now)) items.now))) }
    ensures operand { IfOk result (IsOperand scope.old) }
    ensures scope { scope.new ≡ scope.old }
{
    let mut values = Items::new(alloc);
    let mut pieces = Items::new(alloc);
    for item in items {
        let item = value(alloc, scope, vars, item)?;
        pieces.push(pieces_of(alloc, scope, &item)?)?;
        values.push(item.value)?;
    }
    Ok(Operand {
        value: Lent::Items(values),
        property: None,
        items: pieces,
    })
}

// The property of this name, or nothing.
fn property_operand<'v, 'a: 'v>(
    alloc: Global,
    scope: &Evaluation<'a>,
    name: &'v TextBuf,
) -> Operand<'v>
    ensures value { out_of_lent result.value ≡ spec.property scope.now name.now }
    ensures operand { IsOperand scope.now result }
{
    Operand {
        value: property(scope.scope(), name.text()),
        property: Some(name),
        items: Items::new(alloc),
    }
}

// What the resource has under a name of its own.
#[tactic(auto, using(crate::proofs::Items::field_has_no_items))]
fn resource_operand<'v, 'a: 'v>(
    alloc: Global,
    scope: &Evaluation<'a>,
    name: &TextBuf,
) -> Operand<'v>
    ensures value { out_of_lent result.value ≡ spec.resource scope.now name.now }
    ensures operand { IsOperand scope.now result }
{
    Operand::of(alloc, resource(scope.scope(), name.text()))
}

// The variable of this name, or nothing.
#[tactic(auto, using(crate::proofs::Items::text_has_no_items))]
fn variable_operand<'v, 'a: 'v>(
    alloc: Global,
    scope: &Evaluation<'a>,
    vars: &'v Variables<'v>,
    name: &TextBuf,
) -> Operand<'v>
    ensures value { out_of_lent result.value ≡ spec.variable (with_vars scope.now (vars_of vars.now)) name.now }
    ensures operand { IsOperand scope.now result }
{
    // Only the contract needs the scope.
    let _ = scope;
    Operand::of(alloc, variable(vars, name.text()))
}

// Whether a comparison holds between an operand and the value of a tree.
#[cycle(value)]
fn compares_with<'v, 'a: 'v>(
    alloc: Global,
    scope: &mut Evaluation<'a>,
    vars: &'v Variables<'v>,
    comparison: Comparison,
    a: Operand<'v>,
    b: &'v ExprNode,
) -> Mem<bool>
    requires { IsOperand scope.old a }
    ensures holds { IfOk result (λ holds. holds ≡ spec.comparison_holds comparison (out_of_lent a.entry.value) (spec.value (seen_by scope.old vars.now) b.now)) }
    ensures scope { scope.new ≡ scope.old }
{
    let b = value(alloc, scope, vars, b)?;
    operands_compare(alloc, scope, comparison, &a, &b)
}

// Whether the value of a tree is false.
#[cycle(value)]
fn opposite<'v, 'a: 'v>(
    alloc: Global,
    scope: &mut Evaluation<'a>,
    vars: &'v Variables<'v>,
    operand: &'v ExprNode,
) -> Mem<Operand<'v>>
    ensures value { IfOk result (λ v. out_of_lent v.value ≡ out.Truth (not (spec.is_true (spec.value (seen_by scope.old vars.now) operand.now)))) }
    ensures operand { IfOk result (IsOperand scope.old) }
    ensures scope { scope.new ≡ scope.old }
{
    let operand = value(alloc, scope, vars, operand)?;
    Ok(Operand::of(alloc, Lent::Truth(!is_true(&operand.value))))
}

/// The value of a tree, with what the scope, the variables and the tree have lent.
#[cycle(value)]
pub(crate) fn value<'v, 'a: 'v>(
    alloc: Global,
    scope: &mut Evaluation<'a>,
    vars: &'v Variables<'v>,
    node: &'v ExprNode,
) -> Mem<Operand<'v>>
    ensures value { IfOk result (λ v. out_of_lent v.value ≡ spec.value (seen_by scope.old vars.now) node.now) }
    ensures operand { IfOk result (IsOperand scope.old) }
    ensures scope { scope.new ≡ scope.old }
{
    match node {
        ExprNode::Text(text) => Ok(Operand::of(alloc, Lent::Text(text.text()))),
        ExprNode::Long(number) => Ok(Operand::of(alloc, Lent::Long(*number))),
        ExprNode::Truth(truth) => Ok(Operand::of(alloc, Lent::Truth(*truth))),
        ExprNode::Access(_, _) => Ok(Operand::of(alloc, Lent::Nothing)),
        ExprNode::Variable(name) => Ok(variable_operand(alloc, scope, vars, name)),
        ExprNode::Property(name) => Ok(property_operand(alloc, scope, name)),
        ExprNode::Resource(name) => Ok(resource_operand(alloc, scope, name)),
        ExprNode::List(items) => list_value(alloc, scope, vars, items.as_slice()),
        ExprNode::Not(operand) => opposite(alloc, scope, vars, operand.get()),
        ExprNode::Compare(comparison, a, b) => {
            let a = value(alloc, scope, vars, a.get())?;
            let holds = compares_with(alloc, scope, vars, *comparison, a, b.get())?;
            Ok(Operand::of(alloc, Lent::Truth(holds)))
        }
        ExprNode::And(first, more) => {
            let first = value(alloc, scope, vars, first.get())?;
            and_values(alloc, scope, vars, more.as_slice(), first)
        }
        ExprNode::Or(first, more) => {
            let first = value(alloc, scope, vars, first.get())?;
            or_values(alloc, scope, vars, more.as_slice(), first)
        }
        ExprNode::Choice(condition, a, b) => {
            let condition = value(alloc, scope, vars, condition.get())?;
            let chosen = if is_true(&condition.value) { a } else { b };
            value(alloc, scope, vars, chosen.get())
        }
    }
}

// The value of a node, with copies of what it has lent.
fn owned_value<'v, 'a: 'v>(
    alloc: Global,
    scope: &mut Evaluation<'a>,
    vars: &'v Variables<'v>,
    node: &'v ExprNode,
) -> Mem<Out>
    ensures { IfOk result (λ v. v ≡ spec.value (seen_by scope.old vars.now) node.now) }
{
    owned(alloc, &value(alloc, scope, vars, node)?.value)
}

impl Expr {
    /// The value for a resource. That of an empty expression is nothing.
    pub fn value<'a>(&'a self, alloc: Global, scope: &Scope<'a>) -> Mem<Out>
        ensures { IfOk result (λ v. v ≡ spec.expr_value scope.now self.now) }
    {
        match &self.expression.node {
            Some(node) => {
                let mut resource = Evaluation::of(alloc, scope);
                owned_value(alloc, &mut resource, scope.variables(), node)
            }
            None => Ok(Out::Nothing),
        }
    }
}
