//! A part of a multipart body: its head, an empty line, and its body.
ghost use Rattle.std.specs.Prelude.{◌≡◌, IfOk, option_copied};
ghost use Rattle.form_input.specs.Lines.{lines};
ghost use Rattle.form_input.specs.Multipart as spec;

use crate::lines::next_line;
use crate::parameters::{after_name, is_type, parameter};
use sp_base::{Mem, TextBuf};
use std::alloc::Global;
use std::str;

const DISPOSITION: &[u8] = b"content-disposition";

const FORM_DATA: &[u8] = b"form-data";

const NAME: &[u8] = b"name";

// The first Content-Disposition of a part.
fn disposition(part: &[u8]) -> Option<&[u8]>
    ensures { option_copied result ≡ spec.disposition_in (lines part.now) }
{
    let mut rest = part;
    loop {
        let (line, later) = next_line(rest);
        if line.is_empty() {
            return None;
        }
        if let Some(value) = after_name(b':', DISPOSITION, line) {
            return Some(value);
        }
        match later {
            Some(more) => rest = more,
            None => return None,
        }
    }
}

// The body of a part.
fn value(part: &[u8]) -> Option<&[u8]>
    ensures { option_copied result ≡ spec.value_in (lines part.now) }
{
    let mut rest = part;
    loop {
        let (line, later) = next_line(rest);
        if line.is_empty() {
            return later;
        }
        match later {
            Some(more) => rest = more,
            None => return None,
        }
    }
}

fn utf8(alloc: Global, bytes: &[u8]) -> Mem<Option<TextBuf>>
    ensures { IfOk result (λ o. o ≡ spec.if_utf8 (Some bytes.now)) }
{
    match str::from_utf8(bytes) {
        Ok(text) => Ok(Some(TextBuf::of(alloc, text)?)),
        Err(_) => Ok(None),
    }
}

fn name_of(alloc: Global, disposition: &[u8]) -> Mem<Option<TextBuf>>
    ensures { IfOk result (λ o. o ≡ spec.part_name (Some disposition.now)) }
{
    if !is_type(FORM_DATA, disposition) {
        return Ok(None);
    }
    match parameter(alloc, NAME, disposition)? {
        Some(name) => utf8(alloc, name.as_slice()),
        None => Ok(None),
    }
}

/// The name and the value of a part.
pub fn pair_of(alloc: Global, part: &[u8]) -> Mem<Option<(TextBuf, TextBuf)>>
    ensures { IfOk result (λ o. o ≡ spec.pair_of (lines part.now)) }
{
    let Some(disposition) = disposition(part) else {
        return Ok(None);
    };
    let Some(value) = value(part) else {
        return Ok(None);
    };
    let Some(name) = name_of(alloc, disposition)? else {
        return Ok(None);
    };
    match utf8(alloc, value)? {
        Some(value) => Ok(Some((name, value))),
        None => Ok(None),
    }
}
