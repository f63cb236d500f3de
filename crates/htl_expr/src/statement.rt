//! What block statements ask of an expression: a truth, a list, or a name.

ghost use Rattle.std.specs.Prelude.{◌≡◌, ◌≤◌, IfOk, IfErr, length};
ghost use Rattle.htl_expr.specs.Value as spec;
ghost use Rattle.htl_expr.specs.Variables.{seen_by};
ghost use Rattle.htl_expr.specs.Writing.{WriteFailsAsTooLongIfMemory};

use crate::escape::Writing;
use crate::evaluation::Evaluation;
use crate::expression::Expr;
use crate::lent;
use crate::listed::{Listed, items_of};
use crate::room::WriteFault;
use crate::value::value;
use crate::variables::Variables;
use htl_syntax::Context;
use sp_base::{Mem, TextBuf};
use std::alloc::Global;

impl Expr {
    /// Whether the value is true, for a resource and variables.
    pub fn is_true<'v, 'a: 'v>(
        &'v self,
        alloc: Global,
        of: &mut Evaluation<'a>,
        vars: &'v Variables<'v>,
    ) -> Mem<bool>
        ensures truth { IfOk result (λ truth. truth ≡ spec.is_true (spec.expr_value (seen_by of.old vars.now) self.now)) }
        ensures resource { of.new ≡ of.old }
    {
        match &self.expression.node {
            Some(node) => Ok(lent::is_true(&value(alloc, of, vars, node)?.value)),
            None => Ok(false),
        }
    }

    /// The items of the value, for a resource and variables, where it is a list.
    pub fn listed<'v, 'a: 'v>(
        &'v self,
        alloc: Global,
        of: &mut Evaluation<'a>,
        vars: &'v Variables<'v>,
    ) -> Mem<Option<Listed<'v>>>
        ensures items { IfOk result (λ items. items ≡ spec.list_in (spec.expr_value (seen_by of.old vars.now) self.now)) }
        ensures resource { of.new ≡ of.old }
    {
        match &self.expression.node {
            Some(node) => Ok(items_of(value(alloc, of, vars, node)?.value)),
            None => Ok(None),
        }
    }

    /// The text of the value before it is escaped, for a resource and variables, where it has at most `most` bytes.
    pub fn unescaped<'v, 'a: 'v>(
        &'v self,
        alloc: Global,
        of: &mut Evaluation<'a>,
        vars: &'v Variables<'v>,
        most: usize,
    ) -> Result<TextBuf, WriteFault>
        ensures ok { IfOk result (λ text. (text ≡ spec.unescaped_text (seen_by of.old vars.now) self.now) × (length text ≤ most)) }
        ensures err { IfErr result (WriteFailsAsTooLongIfMemory most (spec.unescaped_text (seen_by of.old vars.now) self.now)) }
        ensures resource { of.new ≡ of.old }
    {
        let mut text = String::new(alloc);
        let writing = Writing {
            most,
            context: Some(Context::Unsafe),
        };
        self.push_in(&mut text, alloc, of, vars, writing)?;
        Ok(TextBuf::from(text))
    }
}
