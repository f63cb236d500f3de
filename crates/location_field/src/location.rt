//! A text as the value of a Location field.
ghost use Rattle.std.specs.Prelude.{◌≡◌, IfOk};
ghost use Rattle.location_field.specs.Location as spec;

use percent_encoding::{AsciiSet, CONTROLS, ascii_set, percent_encode};
use sp_base::{Mem, TextBuf};
use std::alloc::Global;

// The octets of ASCII that are escaped: the controls, and the space. Those above ASCII are escaped whatever the set.
const UNSEEN: AsciiSet = ascii_set!(CONTROLS.add(b' '));

/// A target as the value of a Location field (RFC 9110, section 10.2.2): each byte but the visible ones of ASCII is escaped. A `%` stays as it is.
pub fn location_of(alloc: Global, target: &str) -> Mem<TextBuf>
    ensures { IfOk result (λ text. text ≡ spec.location_of target.now) }
{
    let mut text = String::with_capacity(alloc, target.len())?;
    percent_encode(target.as_bytes(), UNSEEN).append_to(&mut text)?;
    Ok(TextBuf::from(text))
}
