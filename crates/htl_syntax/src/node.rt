//! The tree of an expression.

use sp_base::{TextBuf, TextList};
use sqlite_items::{Boxed, Items};

/// The six operators that compare two values.
#[derive(Clone, Copy, Drop)]
pub enum Comparison {
    Equal,
    NotEqual,
    Below,
    Above,
    AtMost,
    AtLeast,
}

/// An expression as it is written, without its brackets.
#[derive(Drop)]
pub enum ExprNode {
    Text(TextBuf),
    Long(i64),
    Truth(bool),
    /// A name other than `properties`, `resource`, `true` and `false`.
    Variable(TextBuf),
    /// `properties` and its first access.
    Property(TextBuf),
    /// `resource` and its first access.
    Resource(TextBuf),
    /// The items of a list literal.
    List(Items<ExprNode>),
    /// The names that follow each other, one at least.
    Access(Boxed<ExprNode>, TextList),
    Not(Boxed<ExprNode>),
    Compare(Comparison, Boxed<ExprNode>, Boxed<ExprNode>),
    /// The first, and the others, one at least.
    And(Boxed<ExprNode>, Items<ExprNode>),
    Or(Boxed<ExprNode>, Items<ExprNode>),
    Choice(Boxed<ExprNode>, Boxed<ExprNode>, Boxed<ExprNode>),
}
