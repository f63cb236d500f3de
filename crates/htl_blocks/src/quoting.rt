//! The quotes of a tag.

ghost use Rattle.std.specs.Prelude.{◌≡◌};
ghost use Rattle.htl_blocks.specs.Attributes.{begins_statement};
ghost use Rattle.htl_blocks.specs.Markup as spec;

use crate::byte_run::{is_blank, is_quote};

/// Where a byte of a tag stands.
#[derive(Clone, Copy, Drop)]
pub enum Quoting {
    Outside,
    /// Within quotes of this mark.
    Within(u8),
}

pub fn step(quoting: Quoting, c: u8) -> Quoting
    ensures { result ≡ spec.markup_quoting_step quoting c }
{
    match quoting {
        Quoting::Outside => {
            if is_quote(c) {
                Quoting::Within(c)
            } else {
                Quoting::Outside
            }
        }
        Quoting::Within(mark) => {
            if c == mark {
                Quoting::Outside
            } else {
                Quoting::Within(mark)
            }
        }
    }
}

pub fn ends_tag(quoting: Quoting, c: u8) -> bool
    ensures { result ≡ spec.ends_tag quoting c }
{
    match quoting {
        Quoting::Outside => c == b'>',
        Quoting::Within(_) => false,
    }
}

/// Whether a blank and the prefix of the statements stand outside quotes; `rest` is what follows the byte.
#[tactic(auto, unfolding(crate::specs::Attributes::begins_statement))]
pub fn begins_statement(quoting: Quoting, c: u8, rest: &[u8]) -> bool
    ensures { result ≡ begins_statement quoting c rest.now }
{
    match quoting {
        Quoting::Outside => is_blank(c) && rest.starts_with(b"data-sly-"),
        Quoting::Within(_) => false,
    }
}
