//! What is wrong, as lines.

use crate::excerpt::{push_excerpt, push_place};
use crate::quotes::are_closed;
use crate::shown::push_shown;
use any_config::{AnyFault, FarmFault};
use content_json::ContentFault;
use outside_world::InputFault;
use site_faults::ScriptFault;
use sp_base::{Mem, Path};
use std::alloc::Global;

fn push(out: &mut Vec<u8>, bytes: &[u8]) -> Mem<()> {
    out.extend_from_slice(bytes)?;
    Ok(())
}

/// What is wrong at a place of a text: a line that says so, and the text with a caret.
pub fn push_placed(
    alloc: Global,
    out: &mut Vec<u8>,
    text: &[u8],
    at: usize,
    what: &[u8],
) -> Mem<()> {
    push_place(alloc, out, text, at)?;
    push(out, what)?;
    push(out, b"\n")?;
    push_excerpt(out, text, at)
}

/// What is wrong with the script at a path.
pub fn push_script_fault(
    alloc: Global,
    out: &mut Vec<u8>,
    path: &Path,
    text: &[u8],
    fault: ScriptFault,
) -> Mem<()> {
    push(out, b"fault: ")?;
    push_shown(out, path.as_text().as_bytes())?;
    push(out, b":")?;
    let (at, what) = told_of(fault);
    push_placed(alloc, out, text, at, what.as_bytes())
}

// The place of a script's fault, and what is said of it.
fn told_of(fault: ScriptFault) -> (usize, &'static str) {
    match fault {
        ScriptFault::Unclosed(at) => (at, "no } closes this expression"),
        ScriptFault::Unexpected(at) => (at, "no expression goes on with this"),
        ScriptFault::TooDeep(at) => (at, "an expression nests deeper than 32 levels"),
        ScriptFault::OpenTag(at) => (at, "this block tag has no > or no end tag"),
        ScriptFault::BadBlock(at) => (
            at,
            "a data-sly- attribute of this tag is none, stands twice, or has no value that can be read",
        ),
        ScriptFault::DeepBlock(at) => (at, "a block tag in 32 others"),
        ScriptFault::BadTag(at) => (at, "an expression of this tag can't be read"),
    }
}

/// Why the content is refused. The paths in the fault's text are shown.
pub fn push_content_fault(alloc: Global, out: &mut Vec<u8>, fault: &ContentFault) -> Mem<()> {
    push(out, b"fault: content refused: ")?;
    push_shown(out, format!(in alloc; "{fault}")?.as_bytes())?;
    push(out, b"\n")
}

// What is wrong with the quotes at a place of the farm's file.
fn quote_fault(text: &[u8], at: usize) -> &'static [u8] {
    match &text[at.min(text.len())..] {
        [mark, inside @ ..] if are_closed(*mark, inside) => {
            b"BadQuote, the text in these quotes is no UTF-8"
        }
        _ => b"BadQuote, these quotes aren't closed on their line",
    }
}

/// Why the farm's file can't be read.
pub fn push_any_fault(alloc: Global, out: &mut Vec<u8>, text: &[u8], fault: AnyFault) -> Mem<()> {
    push(out, b"fault: farm refused at ")?;
    match fault {
        AnyFault::BadName(at) => push_placed(
            alloc,
            out,
            text,
            at,
            b"BadName, no member with a value begins here",
        ),
        AnyFault::BadQuote(at) => push_placed(alloc, out, text, at, quote_fault(text, at)),
        AnyFault::TooDeep(at) => push_placed(
            alloc,
            out,
            text,
            at,
            b"TooDeep, a group within 32 others",
        ),
        AnyFault::Unclosed(at) => push_placed(
            alloc,
            out,
            text,
            at,
            b"Unclosed, nothing closes this group",
        ),
        AnyFault::NoMemory => Ok(()),
    }
}

/// Why the file has no farm that can be used.
pub fn push_farm_fault(alloc: Global, out: &mut Vec<u8>, fault: &FarmFault) -> Mem<()> {
    push(
        out,
        format!(in alloc; "fault: farm refused: {fault}\n")?.as_bytes(),
    )
}

fn push_number(
    alloc: Global,
    out: &mut Vec<u8>,
    number: usize,
    one: &[u8],
    more: &[u8],
) -> Mem<()> {
    push(out, number.to_string(alloc)?.as_bytes())?;
    push(out, if number == 1 { one } else { more })
}

/// How many faults and warnings there are.
pub fn push_counts(alloc: Global, out: &mut Vec<u8>, faults: usize, warnings: usize) -> Mem<()> {
    push_number(alloc, out, faults, b" fault, ", b" faults, ")?;
    push_number(alloc, out, warnings, b" warning\n", b" warnings\n")
}

/// The line of a file that wasn't read.
pub fn unread_line(alloc: Global, fault: InputFault, name: &str) -> Mem<Vec<u8>> {
    let mut line = Vec::new(alloc);
    push(&mut line, format!(in alloc; "{fault}: ")?.as_bytes())?;
    push_shown(&mut line, name.as_bytes())?;
    push(&mut line, b"\n")?;
    Ok(line)
}
