//! A template, and how it is read.

ghost use Rattle.std.specs.Prelude.{◌≡◌, ◌≢◌, ◌<◌, ◌++◌, ◌+◌, true, IfOk, IfErr, OnOk, Ok, Err, length};
ghost use Rattle.htl_text.specs.Template as spec;
ghost use Rattle.htl_text.specs.Template.{fault_at, template_at, template_of};

use crate::fault::TextFault;
use crate::piece::TemplatePiece;
use crate::quotes::closing;
use crate::scan::{plain, tail};
use htl_expr::{Expr, ExprFault};
use sp_base::{Items, Mem, NoMemory, TextBuf};
use std::alloc::Global;
use std::marker::Model;

/// Text with expressions in it. Contracts see its pieces.
#[derive(Drop)]
pub struct Template {
    pub(crate) pieces: Items<TemplatePiece>,
}

impl Model for Template {
    ghost use Rattle.std.specs.Prelude.{List};
    ghost use Rattle.std.specs.Coded.{codes};
    ghost use Rattle.htl_syntax.specs.contracts.node.ExprNode as node;
    ghost use Rattle.htl_text.specs.declared.piece.TemplatePiece.{TemplatePiece};

    ghost Value = { List TemplatePiece };

    ghost coded = { Prim.hlevel (codes, node.the_row.coded) };

    ghost view = { λ t. t.pieces };
}

/// The expression that opens at the beginning, and the text after it.
#[tactic(auto, unfolding(crate::specs::Template::value_at))]
fn value(alloc: Global, place: usize, text: &str) -> Result<(Expr, &str), TextFault>
    requires { spec.opens_expression text.now ≡ true }
    ensures ok { IfOk result (λ d. spec.value_at place text.now ≡ Ok (d.0, d.1.now)) }
    ensures err { IfErr result (λ f. f ≢ TextFault.NoMemory → spec.value_at place text.now ≡ Err f) }
    ensures less { IfOk result (λ d. length d.1.now < length text.now) }
{
    let inside = tail(tail(text));
    match closing(inside.as_bytes()) {
        None => Err(TextFault::Unclosed(place)),
        Some(len) => {
            let (prefix, remainder) = inside.split_at(len);
            match Expr::read(alloc, prefix) {
                Ok(e) => Ok((e, tail(remainder))),
                Err(ExprFault::NoMemory) => Err(TextFault::NoMemory),
                Err(ExprFault::Unexpected(_)) => Err(TextFault::BadExpr(place)),
                Err(ExprFault::TooDeep(_)) => Err(TextFault::BadExpr(place)),
            }
        }
    }
}

fn push_plain(pieces: &mut Items<TemplatePiece>, text: TextBuf) -> Mem<()>
    ensures { OnOk result (pieces.new ≡ pieces.old ++ spec.plain_pieces text) }
{
    if !text.text().is_empty() {
        pieces.push(TemplatePiece::Plain(text))?;
    }
    Ok(())
}

// The place in another text of a place in a text that begins in it.
fn place_from(place: usize, within: usize) -> Mem<usize>
    ensures { IfOk result (λ sum. sum ≡ place + within) }
{
    match place.checked_add(within) {
        Some(sum) => Ok(sum),
        None => Err(NoMemory),
    }
}

// A fault by its place in another text. No text has more bytes than fit into memory.
fn moved(place: usize, fault: TextFault) -> TextFault
    ensures some { result ≢ TextFault.NoMemory → fault ≢ TextFault.NoMemory }
    ensures moved { result ≢ TextFault.NoMemory → result ≡ fault_at place fault }
{
    match fault {
        TextFault::Unclosed(within) => match place_from(place, within) {
            Ok(sum) => TextFault::Unclosed(sum),
            Err(NoMemory) => TextFault::NoMemory,
        },
        TextFault::BadExpr(within) => match place_from(place, within) {
            Ok(sum) => TextFault::BadExpr(sum),
            Err(NoMemory) => TextFault::NoMemory,
        },
        TextFault::NoMemory => TextFault::NoMemory,
    }
}

impl Template {
    /// Reads a template that begins at a place of another text. The places of its faults are in that text.
    pub fn read_at(alloc: Global, text: &str, place: usize) -> Result<Template, TextFault>
        ensures ok { IfOk result (λ t. template_at place text.now ≡ Ok t) }
        ensures err { IfErr result (λ f. f ≢ TextFault.NoMemory → template_at place text.now ≡ Err f) }
    {
        match Template::read(alloc, text) {
            Ok(template) => Ok(template),
            Err(fault) => Err(moved(place, fault)),
        }
    }

    /// Reads a template. Of several faults it answers the one that comes first in the text.
    pub fn read(alloc: Global, text: &str) -> Result<Template, TextFault>
        ensures ok { IfOk result (λ t. template_of text.now ≡ Ok t) }
        ensures err { IfErr result (λ f. f ≢ TextFault.NoMemory → template_of text.now ≡ Err f) }
    {
        let mut pieces = Items::new(alloc);
        let mut rest = text;
        loop {
            let (prefix, remainder) = plain(alloc, rest)?;
            push_plain(&mut pieces, prefix)?;
            if remainder.is_empty() {
                return Ok(Template { pieces });
            }
            let place = text.len().saturating_sub(remainder.len());
            let (expression, after) = value(alloc, place, remainder)?;
            pieces.push(TemplatePiece::Value(expression))?;
            rest = after;
        }
    }
}
