//! Reads the lines of events.
ghost use Rattle.std.specs.Prelude.{◌≡◌, ◌≢◌, ◌≤◌, ◌<◌, ◌^◌, ◌++◌, ◌∷◌, ℕ, List, IfOk, IfSome, IfNone, IsTrue};
ghost use Rattle.std.specs.List.{list_all};
ghost use Rattle.std.specs.Fmt.{decimal};
ghost use Rattle.replay_text.specs.Transcript.{IsConnectionNumber};
ghost use Rattle.replay_text.specs.EventLines.{flight_text, IsFlightText};
ghost use Rattle.replay_text.specs.Quoting.{not_blank, connection_text, IsNoConnection, IsOfNoConnectionAfter};

use crate::event_line::NamedFlight;
use crate::lines::same;
use connections::{ConnectionId, FlightId};
use sp_base::Mem;
use std::alloc::Global;
use std::str;

// The text before the first blank, and the text after it.
pub fn first_word(text: &[u8]) -> Option<(&[u8], &[u8])>
    ensures some { IfSome result (λ p. (text.now ≡ p.0.now ++ 32 ∷ p.1.now) × IsTrue (list_all not_blank p.0.now)) }
    ensures none { IfNone result ((word rest : List ℕ) → text.now ≢ word ++ 32 ∷ rest) }
{
    for (i, b) in text.iter().enumerate() {
        if *b == b' ' {
            return Some((&text[..i], &text[i + 1..]));
        }
    }
    None
}

// How many numbers a connection may have: 2^32.
const CONNECTION_NUMBERS: u64 = 4_294_967_296;

/// The number that a word spells: decimal, without a sign or leading zeros.
pub fn number(alloc: Global, word: &[u8]) -> Mem<Option<u64>>
    ensures some { IfOk result (λ o. IfSome o (λ n. word.now ≡ decimal n)) }
    ensures none { IfOk result (λ o. IfNone o ((n : ℕ) → n < 2 ^ 64 → word.now ≢ decimal n)) }
{
    let Ok(text) = str::from_utf8(word) else {
        return Ok(None);
    };
    let Ok(n) = text.parse::<u64>() else {
        return Ok(None);
    };
    let again = n.to_string(alloc)?;
    if same(again.as_bytes(), word) {
        Ok(Some(n))
    } else {
        Ok(None)
    }
}

// The number of a connection that a word spells.
pub fn connection(alloc: Global, word: &[u8]) -> Mem<Option<ConnectionId>>
    ensures some { IfOk result (λ o. IfSome o (λ c. IsConnectionNumber c × (word.now ≡ decimal c))) }
    ensures none { IfOk result (λ o. IfNone o (IsNoConnection word.now)) }
{
    let Some(n) = number(alloc, word)? else {
        return Ok(None);
    };
    if n < CONNECTION_NUMBERS {
        Ok(Some(ConnectionId::new(n as u32)))
    } else {
        Ok(None)
    }
}

// The number from 1 on that a word spells.
pub fn number_from_one(alloc: Global, word: &[u8]) -> Mem<Option<u64>>
    ensures some { IfOk result (λ o. IfSome o (λ n. (1 ≤ n) × (n < 2 ^ 64) × (word.now ≡ decimal n))) }
    ensures none { IfOk result (λ o. IfNone o ((n : ℕ) → 1 ≤ n → n < 2 ^ 64 → word.now ≢ decimal n)) }
{
    let Some(n) = number(alloc, word)? else {
        return Ok(None);
    };
    if n > 0 { Ok(Some(n)) } else { Ok(None) }
}

// The flight that a word names.
fn flight(alloc: Global, word: &[u8]) -> Mem<Option<NamedFlight>>
    ensures some { IfOk result (λ o. IfSome o (λ f. IsFlightText f × (word.now ≡ flight_text f))) }
    ensures none { IfOk result (λ o. IfNone o ((f : NamedFlight) → IsFlightText f → word.now ≢ flight_text f)) }
{
    if same(word, b"first") {
        return Ok(Some(NamedFlight::First));
    }
    let Some(n) = number_from_one(alloc, word)? else {
        return Ok(None);
    };
    Ok(Some(NamedFlight::Numbered(FlightId::new(n))))
}

// The text after a word that begins it.
pub fn after_word<'a>(line: &'a [u8], word: &[u8]) -> Option<&'a [u8]>
    ensures some { IfSome result (λ rest. line.now ≡ word.now ++ rest.now) }
    ensures none { IfNone result ((rest : List ℕ) → line.now ≢ word.now ++ rest) }
{
    line.strip_prefix(word)
}

// A flight after a word that is the line's beginning.
pub fn flight_after(alloc: Global, line: &[u8], word: &[u8]) -> Mem<Option<NamedFlight>>
    ensures some { IfOk result (λ o. IfSome o (λ f. IsFlightText f × (line.now ≡ word.now ++ flight_text f))) }
    ensures none { IfOk result (λ o. IfNone o ((f : NamedFlight) → IsFlightText f → line.now ≢ word.now ++ flight_text f)) }
{
    match after_word(line, word) {
        Some(rest) => flight(alloc, rest),
        None => Ok(None),
    }
}

// The number of a connection after a word that is the line's beginning, and the text after a blank. It is the number alone, since the kit's
// borrow checker has no rule for a pair of a struct and a lent text.
pub fn connection_after<'a>(
    alloc: Global,
    line: &'a [u8],
    word: &[u8],
) -> Mem<Option<(u32, &'a [u8])>>
    ensures some { IfOk result (λ o. IfSome o (λ p. IsConnectionNumber p.0 × (line.now ≡ connection_text word.now p.0 p.1.now))) }
    ensures none { IfOk result (λ o. IfNone o (IsOfNoConnectionAfter word.now line.now)) }
{
    let Some(after) = after_word(line, word) else {
        return Ok(None);
    };
    let Some((number, rest)) = first_word(after) else {
        return Ok(None);
    };
    let Some(c) = connection(alloc, number)? else {
        return Ok(None);
    };
    Ok(Some((c.number(), rest)))
}
