//! The names and values of block statements.

ghost use Rattle.std.specs.Prelude.{◌≡◌, ◌≢◌, ◌+◌, IfOk, true, drop, take};
ghost use Rattle.std.specs.List.{list_all};
ghost use Rattle.htl_syntax.specs.Tokens as tokens;
ghost use Rattle.htl_blocks.specs.Attributes as spec;
ghost use Rattle.htl_blocks.specs.LentValues.{value_shown};

use crate::attribute::{Attribute, Body, Unwrap};
use crate::byte_run::{ByteRun, is_quote, is_word, run_bytes};
use crate::markup::{first_at, tail};
use crate::statement::Statement;
use htl_text::{Template, TextFault};
use sp_base::{Mem, NoMemory, TextBuf, begins_with_byte};
use std::alloc::Global;

/// The text of an attribute's value, lent.
#[derive(Drop)]
pub enum LentValue<'a> {
    Missing,
    Unquoted,
    Quoted(&'a str),
}

/// The name of the attribute at the beginning, and the text after the name.
fn key_split(text: &str) -> (&str, &str)
    ensures key { result.0.now ≡ take (spec.key_len text.now) text.now }
    ensures rest { result.1.now ≡ drop (spec.key_len text.now) text.now }
{
    text.split_at(run_bytes(ByteRun::Key, text.as_bytes()))
}

/// The text between quote marks, and what follows the second one.
fn quoted(text: &str, mark: u8) -> (&str, &str)
    requires { tokens.is_quote mark ≡ true }
    ensures value { result.0.now ≡ take (spec.quoted_len mark text.now) text.now }
    ensures rest { result.1.now ≡ drop (spec.quoted_len mark text.now + 1) text.now }
{
    let (value, rest) = text.split_at(run_bytes(ByteRun::Quoted(mark), text.as_bytes()));
    (value, tail(rest))
}

/// The quote mark that begins a text.
fn mark_at(text: &[u8]) -> Option<u8>
    ensures { result ≡ spec.mark_at text.now }
{
    match text {
        [] => None,
        [c, ..] => { if is_quote(*c) { Some(*c) } else { None } }
    }
}

/// The value after `=`, and what follows it.
fn value_after(text: &str) -> (LentValue<'_>, &str)
    ensures { (value_shown result.0, result.1.now) ≡ spec.value_after text.now }
{
    match mark_at(text.as_bytes()) {
        Some(mark) => {
            let (value, rest) = quoted(tail(text), mark);
            (LentValue::Quoted(value), rest)
        }
        None => (LentValue::Unquoted, text),
    }
}

/// A text without the blanks at its beginning.
fn start_trimmed(text: &str) -> &str
    ensures { result.now ≡ spec.start_trimmed text.now }
{
    text.split_at(run_bytes(ByteRun::Blanks, text.as_bytes())).1
}

/// The value after an attribute's name, and what follows it.
#[tactic(auto, unfolding(crate::specs::Attributes::value_read))]
fn value(text: &str) -> (LentValue<'_>, &str)
    ensures { (value_shown result.0, result.1.now) ≡ spec.value_read text.now }
{
    let at_sign = start_trimmed(text);
    if begins_with_byte(b'=', at_sign.as_bytes()) {
        value_after(start_trimmed(tail(at_sign)))
    } else {
        (LentValue::Missing, text)
    }
}

fn are_words(text: &[u8]) -> bool
    ensures { result ≡ list_all tokens.is_word_byte text.now }
{
    text.iter().all(|c| is_word(*c))
}

/// Whether a name is that of a variable.
#[tactic(auto, unfolding(crate::specs::Attributes::is_variable))]
fn is_variable(name: &[u8]) -> bool
    ensures { result ≡ spec.is_variable name.now }
{
    first_at(name) && are_words(name)
}

fn list_statement(alloc: Global, name: &str) -> Mem<Option<Statement>>
    ensures { IfOk result (λ o. o ≡ spec.list_statement name.now) }
{
    if is_variable(name.as_bytes()) {
        Ok(Some(Statement::List(TextBuf::of(alloc, name)?)))
    } else {
        Ok(None)
    }
}

/// The statement that an attribute's name stands for.
#[tactic(auto, unfolding(crate::specs::Attributes::statement_of))]
fn statement_of(alloc: Global, name: &str) -> Mem<Option<Statement>>
    ensures { IfOk result (λ o. o ≡ spec.statement_of name.now) }
{
    match name {
        "data-sly-test" => Ok(Some(Statement::Test)),
        "data-sly-text" => Ok(Some(Statement::Text)),
        "data-sly-unwrap" => Ok(Some(Statement::Unwrap)),
        "data-sly-include" => Ok(Some(Statement::Include)),
        "data-sly-resource" => Ok(Some(Statement::Resource)),
        "data-sly-list" => list_statement(alloc, "item"),
        _ => match name.strip_prefix("data-sly-list.") {
            Some(variable) => list_statement(alloc, variable),
            None => Ok(None),
        },
    }
}

/// The template of a value, where it is one expression or plain text.
fn value_of(alloc: Global, text: &str) -> Mem<Option<Template>>
    ensures { IfOk result (λ o. o ≡ spec.value_of text.now) }
{
    match Template::read(alloc, text) {
        Ok(template) => Ok(one_piece(template)),
        Err(TextFault::NoMemory) => Err(NoMemory),
        Err(TextFault::Unclosed(_)) => Ok(None),
        Err(TextFault::BadExpr(_)) => Ok(None),
    }
}

#[tactic(auto, using(crate::proofs::Values::few_pieces, crate::proofs::Values::many_pieces))]
fn one_piece(template: Template) -> Option<Template>
    ensures { result ≡ spec.at_most_one template }
{
    if template.pieces().len() < 2 {
        Some(template)
    } else {
        None
    }
}

fn with_value(statement: Statement, value: Template) -> Attribute
    ensures { result ≡ spec.attribute_with statement value }
{
    match statement {
        Statement::Test => Attribute::Test(value),
        Statement::List(name) => Attribute::List(name, value),
        Statement::Text => Attribute::Body(Body::Text(value)),
        Statement::Include => Attribute::Body(Body::Include(value)),
        Statement::Resource => Attribute::Body(Body::Resource(value)),
        Statement::Unwrap => Attribute::Unwrap(Unwrap::Where(value)),
    }
}

fn without_value(statement: Statement) -> Option<Attribute>
    ensures { result ≡ spec.attribute_without statement }
{
    match statement {
        Statement::Unwrap => Some(Attribute::Unwrap(Unwrap::Always)),
        Statement::Test => None,
        Statement::List(_) => None,
        Statement::Text => None,
        Statement::Include => None,
        Statement::Resource => None,
    }
}

/// Whether a statement is `data-sly-unwrap`.
fn unwraps(statement: &Statement) -> bool
    ensures { result ≡ spec.unwraps statement.now }
{
    match statement {
        Statement::Unwrap => true,
        Statement::Test => false,
        Statement::List(_) => false,
        Statement::Text => false,
        Statement::Include => false,
        Statement::Resource => false,
    }
}

/// A statement with the text between its quotes.
fn quoted_attribute(alloc: Global, statement: Statement, text: &str) -> Mem<Option<Attribute>>
    ensures { IfOk result (λ o. o ≡ spec.quoted_attribute statement text.now) }
{
    if text.is_empty() && unwraps(&statement) {
        return Ok(Some(Attribute::Unwrap(Unwrap::Always)));
    }
    match value_of(alloc, text)? {
        Some(value) => Ok(Some(with_value(statement, value))),
        None => Ok(None),
    }
}

fn statement_attribute(
    alloc: Global,
    statement: Statement,
    value: LentValue<'_>,
) -> Mem<Option<Attribute>>
    ensures { IfOk result (λ o. o ≡ spec.statement_attribute statement (value_shown value.entry)) }
{
    match value {
        LentValue::Missing => Ok(without_value(statement)),
        LentValue::Unquoted => Ok(None),
        LentValue::Quoted(text) => quoted_attribute(alloc, statement, text),
    }
}

/// The attribute at the beginning, where it is a block statement.
#[tactic(auto, unfolding(crate::specs::Attributes::attribute_of))]
pub fn attribute_of(alloc: Global, text: &str) -> Mem<Option<Attribute>>
    ensures { IfOk result (λ o. o ≡ spec.attribute_of text.now) }
{
    let (key, rest) = key_split(text);
    match statement_of(alloc, key)? {
        Some(statement) => statement_attribute(alloc, statement, value(rest).0),
        None => Ok(None),
    }
}

/// The text after the attribute at the beginning.
#[tactic(auto, unfolding(crate::specs::Attributes::after_attribute))]
pub fn after_attribute(text: &str) -> &str
    ensures { result.now ≡ spec.after_attribute text.now }
{
    value(key_split(text).1).1
}
