//! What is written: a law of the definitions, on a function that does nothing.

ghost use Rattle.htl_syntax.specs.declared.expression.Expression.{Expression};
ghost use Rattle.htl_expr.specs.Print.{IsInert};
ghost use Rattle.htl_expr.specs.Value.{print};
ghost use Rattle.htl_expr.specs.declared.scope.Scope.{Scope};

/// Unless the option `context` is 'unsafe', what an expression writes begins no tag and ends no attribute's value that stands in quotes.
pub fn what_is_written_is_inert()
    ensures { (scope : Scope) (e : Expression) → IsInert e.context (print scope e) }
{}
