//! A whole expression.

ghost use Rattle.std.specs.Prelude.{◌≡◌, ◌≢◌, ◌≤◌, IfOk, IfErr, Ok, Err, length, ◌++◌, string_bytes, Some};
ghost use Rattle.htl_syntax.specs.FaultTexts.{expr_fault_text};
ghost use Rattle.htl_syntax.specs.Tokens.{Gives};
ghost use Rattle.htl_syntax.specs.Read as spec;
ghost use Rattle.htl_syntax.specs.Grammar.{nesting_limit, Whole};
ghost use Rattle.htl_syntax.specs.declared.expression.Expression.{Expression};
ghost use Rattle.htl_syntax.specs.Fault.{colon_letter, takes_colon, fault_place, expression_of, IsReadAs, IsExpressionFault};

use crate::node::ExprNode;
use crate::options::{Options, last_options};
use crate::reader::first;
use crate::stop::ExprStop;
use crate::tokens::skip;
use sp_base::{Mem, NoMemory, TextBuf, begins_with_byte};
use std::alloc::Global;
use std::fmt;

/// Why a text is no expression. A place is counted in bytes from 0.
#[derive(Drop)]
pub enum ExprFault {
    /// No expression goes on with the byte at this place, or the text ends here and is none.
    Unexpected(usize),
    /// The bracket, `!` or `?` at this place would nest deeper than 32.
    TooDeep(usize),
    NoMemory,
}

impl fmt::Display for ExprFault {
    ghost output = { λ fault. Some (expr_fault_text fault) };

    fn fmt<W: fmt::Write>(&self, f: &mut fmt::Formatter<W>) -> fmt::Result {
        match self {
            ExprFault::Unexpected(at) => write!(f, "Unexpected at {at}"),
            ExprFault::TooDeep(at) => write!(f, "TooDeep at {at}"),
            ExprFault::NoMemory => f.write_str("Out of memory"),
        }
    }
}

/// How the printed text is escaped.
#[derive(Clone, Copy, Drop)]
pub enum Context {
    Text,
    Unsafe,
}

/// An expression with its options.
#[derive(Drop)]
pub struct Expression {
    pub node: Option<ExprNode>,
    pub join: Option<TextBuf>,
    pub context: Option<Context>,
}

// A node, if there is one, with its options.
fn expression_of(node: Option<ExprNode>, options: Options) -> Expression
    ensures { result ≡ spec.expr_of node (options.join, options.context) }
{
    Expression {
        node,
        join: options.join,
        context: options.context,
    }
}

#[tactic(auto, unfolding(crate::specs::Read::expression_read))]
fn whole(alloc: Global, text: &str) -> Result<Expression, ExprStop>
    ensures { Gives (λ e. e) result (spec.expression_read nesting_limit text.now) }
{
    let (node, rest) = first(alloc, skip(text))?;
    let options = last_options(alloc, rest)?;
    Ok(expression_of(node, options))
}

// The text with a colon and a letter after it.
fn with_colon(alloc: Global, leading: &str) -> Mem<String>
    ensures { IfOk result (λ text. string_bytes text ≡ leading.now ++ colon_letter) }
{
    let mut text = String::from_str(alloc, leading)?;
    text.push_str(":b")?;
    Ok(text)
}

/// Whether a colon after a text may belong to a field's name: a letter after it is then read.
fn takes_colon(alloc: Global, leading: &str) -> Mem<bool>
    ensures { IfOk result (λ takes. takes ≡ takes_colon nesting_limit leading.now) }
{
    let text = with_colon(alloc, leading)?;
    match whole(alloc, text.as_str()) {
        Ok(_) => Ok(true),
        Err(ExprStop::NoMemory) => Err(NoMemory),
        Err(ExprStop::Unexpected(left)) => Ok(left <= 1),
        Err(ExprStop::TooDeep(_)) => Ok(false),
    }
}

/// The place of a fault. Where a colon may belong to a field's name, the byte after it is the one that doesn't fit.
fn place_of(alloc: Global, text: &str, place: usize) -> Mem<usize>
    requires { place ≤ length text.now }
    ensures { IfOk result (λ p. p ≡ fault_place nesting_limit text.now place) }
{
    if !begins_with_byte(b':', &text.as_bytes()[place..]) {
        return Ok(place);
    }
    let (leading, _rest) = text.split_at(place);
    if takes_colon(alloc, leading)? {
        Ok(place + 1)
    } else {
        Ok(place)
    }
}

impl Expression {
    /// Reads an expression.
    pub fn read(alloc: Global, text: &str) -> Result<Expression, ExprFault>
        // Reading from left to right gives this expression, or this fault at this place.
        ensures ok { IfOk result (λ e. expression_of text.now ≡ Ok e) }
        ensures err { IfErr result (λ f. f ≢ ExprFault.NoMemory → expression_of text.now ≡ Err f) }

        // What is read is in the grammar.
        ensures found { IfOk result (λ e. Whole text.now e) }

        // What is in the grammar is read, unless memory runs out.
        ensures only { (e : Expression) → Whole text.now e → IsReadAs e result }

        // The place of a fault is the first byte with which no expression goes on; it is TooDeep exactly where one would with one level more.
        ensures fault { IfErr result (λ f. IsExpressionFault f text.now) }
    {
        match whole(alloc, text) {
            Ok(e) => Ok(e),
            Err(ExprStop::NoMemory) => Err(ExprFault::NoMemory),
            Err(ExprStop::Unexpected(left)) => {
                match place_of(alloc, text, text.len().saturating_sub(left)) {
                    Ok(place) => Err(ExprFault::Unexpected(place)),
                    Err(NoMemory) => Err(ExprFault::NoMemory),
                }
            }
            Err(ExprStop::TooDeep(left)) => Err(ExprFault::TooDeep(
                text.len().saturating_sub(left),
            )),
        }
    }
}
