//! What is wrong with a script's text that has no reading.
ghost use Rattle.std.specs.Prelude.{◌≡◌, IfOk, Some, true};
ghost use Rattle.site_faults.specs.FaultTexts.{script_fault_text};
ghost use Rattle.htl_syntax.specs.Fault.{expression_of};
ghost use Rattle.site_faults.specs.Scripts as spec;

use htl_blocks::{BlockFault, Blocks};
use htl_syntax::{ExprFault, Expression};
use htl_text::TextFault;
use sp_base::{Mem, NoMemory};
use std::alloc::Global;
use std::fmt;

/// What is wrong first in a text that can't be read as a script. Positions are counted in bytes from 0; that of a tag is the position of
/// its `<`.
#[derive(Clone, Copy, PartialEq, Eq, Drop)]
pub enum ScriptFault {
    /// No `}` outside quotes closes the expression whose `$` is here.
    Unclosed(usize),
    /// No expression goes on with the byte that is here.
    Unexpected(usize),
    /// The bracket, `!` or `?` here would nest deeper than 32.
    TooDeep(usize),
    /// The block tag here has no `>`, or no end tag.
    OpenTag(usize),
    /// A `data-sly-` attribute of the tag here is none, stands twice, or has a value without a reading.
    BadBlock(usize),
    /// The block tag here stands in 32 others.
    DeepBlock(usize),
    /// What is left of the block tag here has an expression that can't be read.
    BadTag(usize),
}

impl fmt::Display for ScriptFault {
    ghost output = { λ fault. Some (script_fault_text fault) };

    fn fmt<W: fmt::Write>(&self, f: &mut fmt::Formatter<W>) -> fmt::Result {
        match self {
            ScriptFault::Unclosed(at) => write!(f, "Unclosed at {at}"),
            ScriptFault::Unexpected(at) => write!(f, "Unexpected at {at}"),
            ScriptFault::TooDeep(at) => write!(f, "TooDeep at {at}"),
            ScriptFault::OpenTag(at) => write!(f, "OpenTag at {at}"),
            ScriptFault::BadBlock(at) => write!(f, "BadBlock at {at}"),
            ScriptFault::DeepBlock(at) => write!(f, "DeepBlock at {at}"),
            ScriptFault::BadTag(at) => write!(f, "BadTag at {at}"),
        }
    }
}

// Whether an expression opens at a position.
fn opens_at(text: &str, position: usize) -> bool
    ensures { result ≡ spec.opens_at text.now position }
{
    let bytes = text.as_bytes();
    position <= bytes.len() && bytes.split_at(position).1.starts_with(b"${")
}

// The text after the `${` at a position.
fn after_opening(text: &str, position: usize) -> &str
    requires { spec.opens_at text.now position ≡ true }
    ensures { result.now ≡ spec.after_opening text.now position }
{
    text.split_at(position + 2).1
}

// What is wrong with the expression that opens at a position.
fn expression_fault(alloc: Global, text: &str, position: usize) -> Mem<ScriptFault>
    requires { spec.opens_at text.now position ≡ true }
    ensures { IfOk result (λ fault. fault ≡ spec.expression_fault position (expression_of (spec.after_opening text.now position))) }
{
    match Expression::read(alloc, after_opening(text, position)) {
        Ok(_) => Ok(ScriptFault::Unexpected(position)),
        Err(ExprFault::Unexpected(at)) => Ok(ScriptFault::Unexpected(position + 2 + at)),
        Err(ExprFault::TooDeep(at)) => Ok(ScriptFault::TooDeep(position + 2 + at)),
        Err(ExprFault::NoMemory) => Err(NoMemory),
    }
}

// What is wrong where something opens at a position that nothing closes: an expression, or else one of the tag there.
fn unclosed_fault(text: &str, position: usize) -> ScriptFault
    ensures { result ≡ spec.unclosed_fault text.now position }
{
    if opens_at(text, position) {
        ScriptFault::Unclosed(position)
    } else {
        ScriptFault::BadTag(position)
    }
}

// What is wrong with the expression that opens at a position, or else with one of the tag there.
fn read_fault(alloc: Global, text: &str, position: usize) -> Mem<ScriptFault>
    ensures { IfOk result (λ fault. fault ≡ spec.read_fault text.now position) }
{
    if opens_at(text, position) {
        expression_fault(alloc, text, position)
    } else {
        Ok(ScriptFault::BadTag(position))
    }
}

// What is wrong with the script of which this was told of a template.
fn template_fault(alloc: Global, text: &str, fault: TextFault) -> Mem<Option<ScriptFault>>
    ensures { IfOk result (λ told. told ≡ spec.fault_of_template text.now fault) }
{
    match fault {
        TextFault::Unclosed(position) => Ok(Some(unclosed_fault(text, position))),
        TextFault::BadExpr(position) => Ok(Some(read_fault(alloc, text, position)?)),
        TextFault::NoMemory => Err(NoMemory),
    }
}

/// What is wrong first with a script's text, where it has no reading.
pub fn text_fault(alloc: Global, text: &str) -> Mem<Option<ScriptFault>>
    ensures { IfOk result (λ fault. fault ≡ spec.fault_of_text text.now) }
{
    match Blocks::read(alloc, text) {
        Ok(_) => Ok(None),
        Err(BlockFault::OpenTag(position)) => Ok(Some(ScriptFault::OpenTag(position))),
        Err(BlockFault::BadBlock(position)) => Ok(Some(ScriptFault::BadBlock(position))),
        Err(BlockFault::TooDeep(position)) => Ok(Some(ScriptFault::DeepBlock(position))),
        Err(BlockFault::Text(fault)) => template_fault(alloc, text, fault),
        Err(BlockFault::NoMemory) => Err(NoMemory),
    }
}
