//! An expression.

ghost use Rattle.std.specs.Prelude.{◌≡◌, ◌≢◌, IfOk, IfErr, Ok, Err};
ghost use Rattle.htl_syntax.specs.declared.expression.Expression.{Expression};
ghost use Rattle.htl_syntax.specs.Grammar.{Whole};
ghost use Rattle.htl_syntax.specs.Fault.{expression_of, IsReadAs, IsExpressionFault};

use htl_syntax::{ExprFault, Expression};
use std::alloc::Global;
use std::marker::Model;

/// An expression with its options, as it was read. Contracts see that.
#[derive(Drop)]
pub struct Expr {
    pub(crate) expression: Expression,
}

impl Model for Expr {
    ghost use Rattle.std.specs.Coded.{codes};
    ghost use Rattle.htl_syntax.specs.contracts.node.ExprNode as node;
    ghost use Rattle.htl_syntax.specs.declared.expression.Expression.{Expression};

    ghost Value = { Expression };

    ghost coded = { Prim.hlevel (codes, node.the_row.coded) };

    ghost view = { λ e. e.expression };
}

impl Expr {
    /// Reads an expression.
    pub fn read(alloc: Global, text: &str) -> Result<Expr, ExprFault>
        // Reading from left to right gives this expression, or this fault at this place.
        ensures ok { IfOk result (λ e. expression_of text.now ≡ Ok e) }
        ensures err { IfErr result (λ f. f ≢ ExprFault.NoMemory → expression_of text.now ≡ Err f) }

        // What is read is in the grammar.
        ensures found { IfOk result (λ e. Whole text.now e) }

        // What is in the grammar is read, unless memory runs out.
        ensures only { (e : Expression) → Whole text.now e → IsReadAs e result }

        // The place of a fault is the first byte with which no expression goes on; it is TooDeep exactly where one would with one level more.
        ensures fault { IfErr result (λ f. IsExpressionFault f text.now) }
    {
        Ok(Expr {
            expression: Expression::read(alloc, text)?,
        })
    }
}
