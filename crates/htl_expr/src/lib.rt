//! Expressions of the HTML Template Language (HTL specification 1.4, "Expression Language").
#![tactic(auto)]

mod classes;
mod compare;
mod compared_value;
mod cursor;
mod empty_join;
mod escape;
mod evaluation;
mod expression;
mod kept;
mod laws;
mod lent;
mod listed;
mod lists;
mod literals;
mod numbered;
mod out;
mod pieces;
mod print;
mod room;
mod scope;
mod statement;
mod value;
mod variables;

pub use evaluation::Evaluation;
pub use expression::Expr;
pub use htl_syntax::{Comparison, Context, ExprFault, ExprNode};
pub use laws::what_is_written_is_inert;
pub use listed::{ItemText, Listed};
pub use out::Out;
pub use room::WriteFault;
pub use scope::Scope;
pub use variables::Variables;
