//! Numbers of 64 bits.

ghost use Rattle.std.specs.Prelude.{◌≡◌, ◌≤◌, ◌<◌, true, false, Ok};
ghost use Rattle.htl_syntax.specs.Tokens as spec;
ghost use Rattle.htl_syntax.specs.Tokens.{Gives};

use crate::stop::ExprStop;
use crate::tokens::{begins_with_byte, digit_at, is_digit, skip, tail};

#[tactic(auto, unfolding(crate::specs::Tokens::expression_digit_fits))]
fn next(limit: u64, magnitude: u64, text: &[u8]) -> Option<u64>
    ensures { result ≡ spec.next_number limit magnitude text.now }
{
    match text {
        [] => None,
        [c, ..] => {
            if !is_digit(*c) {
                return None;
            }
            let next = magnitude as u128 * 10 + (*c - b'0') as u128;
            if next <= limit as u128 {
                Some(next as u64)
            } else {
                None
            }
        }
    }
}

/// The longest number at the beginning that fits.
#[tactic(auto, using(crate::proofs::Decimal::next_some, crate::proofs::Decimal::next_none))]
fn digits_from(limit: u64, text: &str) -> (u64, &str)
    ensures value { spec.expression_digits_from limit 0 text.now ≡ (result.0, result.1.now) }
    ensures fits { result.0 ≤ limit }
{
    let mut magnitude = 0;
    let mut rest = text;
    while let Some(more) = next(limit, magnitude, rest.as_bytes()) {
        magnitude = more;
        rest = tail(rest);
    }
    (magnitude, rest)
}

fn limit(is_negative: bool) -> u64
    ensures { result ≡ spec.limit is_negative }
{
    if is_negative { 1 << 63 } else { (1 << 63) - 1 }
}

fn signed(is_negative: bool, magnitude: u64) -> i64
    requires { magnitude ≤ spec.limit is_negative }
    ensures { result ≡ spec.signed_value is_negative magnitude }
{
    if !is_negative {
        magnitude as i64
    } else if magnitude == 0 {
        0
    } else {
        -((magnitude - 1) as i64) - 1
    }
}

#[tactic(auto, unfolding(crate::specs::Tokens::digits))]
fn digits(is_negative: bool, text: &str) -> Result<(i64, &str), ExprStop>
    ensures { Gives (λ x. (x.0, x.1.now)) result (spec.digits is_negative text.now) }
{
    if !digit_at(text) {
        return Err(ExprStop::Unexpected(text.len()));
    }
    let (magnitude, rest) = digits_from(limit(is_negative), text);
    Ok((signed(is_negative, magnitude), skip(rest)))
}

#[tactic(auto, using(crate::proofs::Scan::minus_ascii), unfolding(crate::specs::Tokens::signed_number))]
pub fn number(text: &str) -> Result<(i64, &str), ExprStop>
    ensures { Gives (λ x. (x.0, x.1.now)) result (spec.signed_number text.now) }
{
    if begins_with_byte(b'-', text) {
        digits(true, tail(text))
    } else {
        digits(false, text)
    }
}
