//! What a template is made of.

ghost use Rattle.std.specs.Prelude.{◌≡◌};

use crate::template::Template;
use htl_expr::Expr;
use sp_base::TextBuf;

/// A piece of a template.
#[derive(Drop)]
pub enum TemplatePiece {
    /// Text that is written as it is.
    Plain(TextBuf),
    /// An expression, of which the printed value is written.
    Value(Expr),
}

impl Template {
    /// The pieces of the template, in their order.
    pub fn pieces(&self) -> &[TemplatePiece]
        ensures { result.now ≡ self.now }
    {
        self.pieces.as_slice()
    }
}
