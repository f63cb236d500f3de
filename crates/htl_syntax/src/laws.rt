//! What the reading is: laws of the definitions, on functions that do nothing.

ghost use Rattle.std.specs.Prelude.{◌≡◌, ◌≢◌, ◌≤◌, ℕ, List, Ok, Err};
ghost use Rattle.htl_syntax.specs.declared.expression.Expression.{Expression};
ghost use Rattle.htl_syntax.specs.declared.expression.ExprFault.{ExprFault};
ghost use Rattle.htl_syntax.specs.Grammar.{Whole, WholeWithin};
ghost use Rattle.htl_syntax.specs.Fault.{expression_of, IsExpressionFault, AreOneFaultIfBothAre};

/// The reading from left to right, by which templates are defined, is the grammar: a text is read as an expression exactly where the
/// grammar has it as that one, and the place of a fault is the first byte with which no expression goes on. It lacks no memory.
pub fn the_template_reading_is_the_grammar()
    ensures found { (text : List ℕ) (e : Expression) → expression_of text ≡ Ok e → Whole text e }
    ensures only { (text : List ℕ) (e : Expression) → Whole text e → expression_of text ≡ Ok e }
    ensures fault { (text : List ℕ) (f : ExprFault) → expression_of text ≡ Err f → IsExpressionFault f text }
    ensures memory { (text : List ℕ) → expression_of text ≢ Err ExprFault.NoMemory }
{}

/// A deeper limit keeps what was read, and a text has one fault: too deep exactly where an expression would go on with one level more, and
/// unexpected exactly where none would with any number of levels.
pub fn too_deep_is_the_limit()
    ensures deeper { (levels deeper : ℕ) (text : List ℕ) (e : Expression) → levels ≤ deeper → WholeWithin levels text e → WholeWithin deeper text e }
    ensures one { (text : List ℕ) (f g : ExprFault) → f ≢ ExprFault.NoMemory → g ≢ ExprFault.NoMemory → AreOneFaultIfBothAre text f g }
{}
