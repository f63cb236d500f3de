//! The order of texts by their bytes.
ghost use Rattle.std.specs.Prelude.{◌≡◌};
ghost use Rattle.sp_base.specs.PathTexts.{text_order, byte_order};

use std::cmp::Ordering;

// The order of two bytes that differ: a slash, which ends a segment, is below every other.
fn byte_order(b: u8, other: u8) -> Ordering
    ensures { result ≡ byte_order b other }
{
    if b == b'/' {
        Ordering::Less
    } else if other == b'/' {
        Ordering::Greater
    } else {
        b.cmp(&other)
    }
}

// The order of two paths by their texts.
pub fn text_order(text: &[u8], other: &[u8]) -> Ordering
    ensures { result ≡ text_order text.now other.now }
{
    let both = text.len().min(other.len());
    let mut at = 0;
    while at < both && text[at] == other[at] {
        at += 1;
    }
    if at < both {
        byte_order(text[at], other[at])
    } else {
        text.len().cmp(&other.len())
    }
}
