//! The grammar of the expressions of the HTML Template Language (HTL specification 1.4, "Expression Language"), and their reading.
#![tactic(auto)]

mod access;
mod expression;
mod laws;
mod node;
mod numbers;
mod options;
mod reader;
mod stop;
mod tokens;

pub use expression::{Context, ExprFault, Expression};
pub use laws::{the_template_reading_is_the_grammar, too_deep_is_the_limit};
pub use node::{Comparison, ExprNode};
