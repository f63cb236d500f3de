//! The name that is made for a new node.
ghost use Rattle.std.specs.Prelude.{◌≡◌, ◌<◌, IfOk, false, string_bytes, take};
ghost use Rattle.post_plan.specs.NewNames as spec;

use sp_base::{Mem, TextBuf};
use std::alloc::Global;

/// The most bytes of a made name.
const LONGEST_MADE: usize = 20;

// The bytes of a word as those of a name, at most as many as one has.
fn squeezed(alloc: Global, word: &str) -> Mem<String>
    ensures { IfOk result (λ name. string_bytes name ≡ take spec.longest_made (spec.name_bytes false word.now)) }
{
    let mut name = String::new(alloc);
    let mut run = false;
    let mut rest = word.as_bytes();
    while let [b, more @ ..] = rest {
        if name.as_str().len() == LONGEST_MADE {
            return Ok(name);
        }
        if b.is_ascii_alphanumeric() {
            name.push(char::from(b.to_ascii_lowercase()))?;
            run = false;
        } else if !run {
            name.push('_')?;
            run = true;
        }
        rest = more;
    }
    Ok(name)
}

/// The name that is made from a word.
pub fn made_name(alloc: Global, word: &str) -> Mem<TextBuf>
    ensures { IfOk result (λ name. name ≡ spec.made_name word.now) }
{
    let name = squeezed(alloc, word)?;
    if name.is_empty() {
        return TextBuf::of(alloc, "node");
    }
    Ok(TextBuf::from(name))
}
