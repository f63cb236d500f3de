//! What the bytes of a file read as.
ghost use Rattle.std.specs.Prelude.{◌≡◌, ◌<◌, drop, length, option_map};
ghost use Rattle.docroot_format.specs.Readings as spec;

use cover_rules::Stamp;

// The number with the next digit, where it fits.
#[tactic(auto, unfolding(crate::specs::Readings::digit_fits))]
fn next(number: u64, text: &[u8]) -> Option<u64>
    ensures { result ≡ spec.next_of number text.now }
{
    match text {
        [] => None,
        [b, ..] => {
            if !b.is_ascii_digit() {
                return None;
            }
            let next = number as u128 * 10 + (*b - b'0') as u128;
            if next <= u64::MAX as u128 {
                Some(next as u64)
            } else {
                None
            }
        }
    }
}

fn tail(text: &[u8]) -> &[u8]
    requires { 0 < length text.now }
    ensures { result.now ≡ drop 1 text.now }
{
    &text[1..]
}

// The longest number at the beginning that fits, and what is left.
#[tactic(auto, using(crate::proofs::Digits::next_none))]
fn digits(text: &[u8]) -> (u64, &[u8])
    ensures { spec.digits_from 0 text.now ≡ (result.0, result.1.now) }
{
    let mut number = 0;
    let mut rest = text;
    while let Some(more) = next(number, rest) {
        number = more;
        rest = tail(rest);
    }
    (number, rest)
}

fn begins_number(text: &[u8]) -> bool
    ensures { result ≡ spec.begins_number text.now }
{
    match text {
        [] => false,
        [b] => b.is_ascii_digit(),
        [b, c, ..] => b.is_ascii_digit() && !(*b == b'0' && c.is_ascii_digit()),
    }
}

#[tactic(auto, unfolding(crate::specs::Readings::leading_number))]
pub(crate) fn number(text: &[u8]) -> Option<(u64, &[u8])>
    ensures { option_map (λ p. (p.0, p.1.now)) result ≡ spec.leading_number text.now }
{
    if begins_number(text) {
        Some(digits(text))
    } else {
        None
    }
}

#[tactic(auto, unfolding(crate::specs::Readings::after_word))]
pub(crate) fn after_word<'a>(word: &[u8], text: &'a [u8]) -> Option<&'a [u8]>
    ensures { option_map (λ rest. rest.now) result ≡ spec.after_word word.now text.now }
{
    if text.starts_with(word) {
        Some(&text[word.len()..])
    } else {
        None
    }
}

// The end of a line, and nothing after it.
pub(crate) fn is_end(text: &[u8]) -> bool
    ensures { result ≡ spec.is_end text.now }
{
    text == b"\n".as_slice()
}

#[tactic(auto, unfolding(crate::specs::Readings::stamp_of))]
pub(crate) fn stamp(text: &[u8]) -> Option<(Stamp, &[u8])>
    ensures { option_map (λ p. (p.0, p.1.now)) result ≡ spec.stamp_of text.now }
{
    let (epoch, rest) = number(text)?;
    let rest = after_word(b" ", rest)?;
    let (count, rest) = number(rest)?;
    Some((Stamp { epoch, count }, rest))
}

/// The stamp that a .stat file holds.
#[tactic(auto, unfolding(crate::specs::Readings::stat_of))]
pub fn stat_in(text: &[u8]) -> Option<Stamp>
    ensures { result ≡ spec.stat_of text.now }
{
    let rest = after_word(b"stat 1 ", text)?;
    let (stamp, rest) = stamp(rest)?;
    if is_end(rest) { Some(stamp) } else { None }
}

/// The epoch that a file holds, from 1 on.
#[tactic(auto, unfolding(crate::specs::Readings::epoch_of))]
pub fn epoch_in(text: &[u8]) -> Option<u64>
    ensures { result ≡ spec.epoch_of text.now }
{
    let rest = after_word(b"epoch 1 ", text)?;
    let (epoch, rest) = number(rest)?;
    if is_end(rest) && epoch > 0 {
        Some(epoch)
    } else {
        None
    }
}
