//! Numbers of a farm.
ghost use Rattle.std.specs.Prelude.{◌≡◌, ◌≤◌, ◌<◌, ◌^◌, IfOk, IfSome};
ghost use Rattle.sp_base.specs.Bytes.{is_digit};
ghost use Rattle.any_config.specs.Farms as spec;
ghost use Rattle.any_config.specs.Farms.{FarmGives};

use crate::farm_fault::FarmFault;
use crate::members::{Member, value_of, word_of};
use sp_base::TextBuf;
use std::alloc::Global;

fn is_digit(c: u8) -> bool
    ensures { result ≡ is_digit c }
{
    c >= b'0' && c <= b'9'
}

fn digits(most: u32, text: &[u8]) -> Option<u32>
    requires { most < 2 ^ 16 }
    ensures value { result ≡ spec.digits_after most 0 text.now }
    ensures within { IfSome result (λ n. n ≤ most) }
{
    let mut n: u32 = 0;
    for c in text {
        if !is_digit(*c) {
            return None;
        }
        let more = n * 10 + u32::from(*c - b'0');
        if more > most {
            return None;
        }
        n = more;
    }
    Some(n)
}

/// Decimal digits without a leading zero, of a number that is at most this.
#[tactic(auto, unfolding(crate::specs::Farms::decimal))]
pub fn decimal(most: u32, text: &[u8]) -> Option<u32>
    requires { most < 2 ^ 16 }
    ensures value { result ≡ spec.decimal most text.now }
    ensures within { IfSome result (λ n. n ≤ most) }
{
    match text {
        [] => None,
        [b'0', _, ..] => None,
        _ => digits(most, text),
    }
}

/// A number up to this, 0 where there is none.
#[tactic(auto, unfolding(crate::specs::Farms::member_number))]
pub fn number(alloc: Global, name: &str, most: u32, members: &[Member]) -> Result<u32, FarmFault>
    requires { most < 2 ^ 16 }
    ensures value { FarmGives (λ n. n) result (spec.member_number name.now most members.now) }
    ensures within { IfOk result (λ n. n ≤ most) }
{
    let Some(value) = value_of(name, members) else {
        return Ok(0);
    };
    let text = word_of(alloc, name, value)?;
    match decimal(most, text.as_bytes()) {
        Some(n) => Ok(n),
        None => Err(FarmFault::BadKind(TextBuf::of(alloc, name)?)),
    }
}
