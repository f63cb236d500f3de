//! The form of a request.
ghost use Rattle.std.specs.Prelude.{◌≡◌, ◌≢◌, Ok, Err, IfOk, IfErr, option_map};
ghost use Rattle.std.specs.Cow.{cow_str_bytes};
ghost use Rattle.form_input.specs.Forms.{form_of, urlencoded_of, by_boundary};

use crate::FormFault;
use crate::multipart::read_multipart;
use crate::parameters::{is_type, parameter};
use form_urlencoded::parse;
use sp_base::{Items, TextBuf};
use std::alloc::{AllocError, Global};
use std::borrow::CowStr;

/// The most pairs of a form.
pub const MOST_PAIRS: usize = 1000;

/// The most bytes of a boundary (RFC 2046, section 5.1.1).
const LONGEST_BOUNDARY: usize = 70;

const URLENCODED: &[u8] = b"application/x-www-form-urlencoded";

const MULTIPART: &[u8] = b"multipart/form-data";

const BOUNDARY: &[u8] = b"boundary";

/// The pairs of a form in their order: a name and a word each.
pub type Form = Items<(TextBuf, TextBuf)>;

/// Reads a body by its Content-Type, which is empty where there is none. The faults are looked for in the order of the enum; of a
/// multipart body the first fault in the body is answered.
pub fn read_form(alloc: Global, kind: &str, body: &[u8]) -> Result<Form, FormFault>
    ensures ok { IfOk result (λ form. form_of kind.now body.now ≡ Ok form) }
    ensures err { IfErr result (λ e. e ≢ FormFault.NoMemory → form_of kind.now body.now ≡ Err e) }
{
    let kind = kind.as_bytes();
    if kind.is_empty() && body.is_empty() {
        return Ok(Form::new(alloc));
    }
    if is_type(URLENCODED, kind) {
        return read_urlencoded(alloc, body);
    }
    if is_type(MULTIPART, kind) {
        let boundary = parameter(alloc, BOUNDARY, kind)?;
        return by_boundary(alloc, boundary, body);
    }
    Err(FormFault::WrongKind)
}

fn by_boundary(alloc: Global, boundary: Option<Vec<u8>>, body: &[u8]) -> Result<Form, FormFault>
    ensures ok { IfOk result (λ form. by_boundary (option_map (λ v. v.items) boundary) body.now ≡ Ok form) }
    ensures err { IfErr result (λ e. e ≢ FormFault.NoMemory → by_boundary (option_map (λ v. v.items) boundary) body.now ≡ Err e) }
{
    let Some(boundary) = boundary else {
        return Err(FormFault::NoBoundary);
    };
    if boundary.is_empty() || boundary.len() > LONGEST_BOUNDARY {
        return Err(FormFault::NoBoundary);
    }
    read_multipart(alloc, boundary.as_slice(), body)
}

fn read_urlencoded(alloc: Global, body: &[u8]) -> Result<Form, FormFault>
    ensures ok { IfOk result (λ form. urlencoded_of body.now ≡ Ok form) }
    ensures err { IfErr result (λ e. e ≢ FormFault.NoMemory → urlencoded_of body.now ≡ Err e) }
{
    let mut form = Form::new(alloc);
    for pair in parse(alloc, body) {
        if form.len() == MOST_PAIRS {
            return Err(FormFault::TooMany);
        }
        let (name, word) = pair?;
        form.push((text_of(alloc, name)?, text_of(alloc, word)?))?;
    }
    Ok(form)
}

fn text_of(alloc: Global, text: CowStr) -> Result<TextBuf, AllocError>
    ensures { IfOk result (λ t. t ≡ cow_str_bytes text.entry) }
{
    Ok(TextBuf::from(text.into_owned(alloc)?))
}
