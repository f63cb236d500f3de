//! Options: `@ join='..', context='..'`.

ghost use Rattle.std.specs.Prelude.{◌<◌, Ok, Some, None};
ghost use Rattle.htl_syntax.specs.Read as spec;
ghost use Rattle.htl_syntax.specs.Steps as steps;
ghost use Rattle.htl_syntax.specs.Tokens.{Gives};

use crate::expression::Context;
use crate::stop::ExprStop;
use crate::tokens::{begins_with_byte, expect, is_quote, literal, remainder, skip, string, tail};
use sp_base::TextBuf;
use std::alloc::Global;

/// The options that were read.
#[derive(Drop)]
pub struct Options {
    pub join: Option<TextBuf>,
    pub context: Option<Context>,
}

#[tactic(auto, unfolding(crate::specs::Read::context_word))]
fn context_word(text: &str) -> Result<(Context, &str), ExprStop>
    ensures { Gives (λ x. (x.0, x.1.now)) result (spec.context_word text.now) }
{
    if begins_with_byte(b't', text) {
        let rest = literal(b"text", text)?;
        Ok((Context::Text, rest))
    } else {
        let rest = literal(b"unsafe", text)?;
        Ok((Context::Unsafe, rest))
    }
}

/// `'text'` or `'unsafe'` with either mark.
#[tactic(auto, using(crate::proofs::Strings::quote_ascii), unfolding(crate::specs::Read::context_string, crate::specs::Tokens::begins))]
fn context_string(text: &str) -> Result<(Context, &str), ExprStop>
    ensures { Gives (λ x. (x.0, x.1.now)) result (spec.context_string text.now) }
{
    match text.as_bytes() {
        [] => Err(ExprStop::Unexpected(0)),
        [mark, ..] => {
            if !is_quote(*mark) {
                return Err(ExprStop::Unexpected(text.len()));
            }
            let (context, rest) = context_word(tail(text))?;
            let rest = expect(*mark, rest)?;
            Ok((context, rest))
        }
    }
}

#[tactic(auto, unfolding(crate::specs::Read::join_option))]
fn join_option(alloc: Global, text: &str) -> Result<(TextBuf, &str), ExprStop>
    ensures { Gives (λ x. (x.0, x.1.now)) result (spec.join_option text.now) }
{
    let rest = literal(b"join", text)?;
    let rest = expect(b'=', skip(rest))?;
    string(alloc, rest)
}

#[tactic(auto, unfolding(crate::specs::Read::context_option))]
fn context_option(text: &str) -> Result<(Context, &str), ExprStop>
    ensures { Gives (λ x. (x.0, x.1.now)) result (spec.context_option text.now) }
{
    let rest = literal(b"context", text)?;
    let rest = expect(b'=', skip(rest))?;
    context_string(rest)
}

// The join option, beside the context that was given before it, if one was.
fn with_join(
    alloc: Global,
    context: Option<Context>,
    text: &str,
) -> Result<(Options, &str), ExprStop>
    ensures { Gives (λ x. ((x.0.join, x.0.context), x.1.now)) result (steps.with_join context text.now) }
{
    let (word, rest) = join_option(alloc, text)?;
    let join = Some(word);
    Ok((Options { join, context }, rest))
}

// The context option, beside the join that was given before it, if one was.
fn with_context(join: Option<TextBuf>, text: &str) -> Result<(Options, &str), ExprStop>
    ensures { Gives (λ x. ((x.0.join, x.0.context), x.1.now)) result (steps.with_context join text.now) }
{
    let (word, rest) = context_option(text)?;
    let context = Some(word);
    Ok((Options { join, context }, rest))
}

/// An option that isn't given yet.
#[tactic(auto, unfolding(crate::specs::Read::option))]
fn read_option<'a>(
    alloc: Global,
    given: Options,
    text: &'a str,
) -> Result<(Options, &'a str), ExprStop>
    ensures { Gives (λ x. ((x.0.join, x.0.context), x.1.now)) result (spec.option (given.join, given.context) text.now) }
{
    if given.join.is_none() && begins_with_byte(b'j', text) {
        with_join(alloc, given.context, text)
    } else if given.context.is_none() && begins_with_byte(b'c', text) {
        with_context(given.join, text)
    } else {
        Err(ExprStop::Unexpected(text.len()))
    }
}

/// Each option once at most.
#[tactic(auto, unfolding(crate::specs::Read::options))]
fn read_options(alloc: Global, text: &str) -> Result<(Options, &str), ExprStop>
    ensures { Gives (λ x. ((x.0.join, x.0.context), x.1.now)) result (spec.options text.now) }
{
    let none = Options {
        join: None,
        context: None,
    };
    if !begins_with_byte(b'@', text) {
        return Ok((none, text));
    }
    let (given, rest) = read_option(alloc, none, remainder(b'@', text))?;
    if begins_with_byte(b',', rest) {
        read_option(alloc, given, remainder(b',', rest))
    } else {
        Ok((given, rest))
    }
}

/// The options, after which nothing stands.
pub fn last_options(alloc: Global, text: &str) -> Result<Options, ExprStop>
    ensures { Gives (λ x. (x.join, x.context)) result (steps.last_options text.now) }
{
    let (options, rest) = read_options(alloc, text)?;
    if rest.is_empty() {
        Ok(options)
    } else {
        Err(ExprStop::Unexpected(rest.len()))
    }
}
