// Passes over values of a JSON text that no content comes of.
ghost use Rattle.std.specs.Prelude.{◌≡◌, ◌==◌, ◌<◌, ◌≤◌, ◌∷◌, ℕ, false, true, is_some, length, slice_index, IsTrue};
ghost use Rattle.json.specs.Reads.{token_of};
ghost use Rattle.serde_json.specs.Read.{number_from, number_of};
ghost use Rattle.content_json.specs.Tokens.{value_of_tokens, items_within, members_of_tokens, IsPassedOver};

use fast_float::Numeral;
use json::{Reader, Token};

pub(crate) fn has_minus(bytes: &[u8]) -> bool
    ensures value { result ≡ (slice_index bytes.now 0 == 45) }
    ensures some { IsTrue result → 0 < length bytes.now }
{
    !bytes.is_empty() && bytes[0] == b'-'
}

fn has_unsigned(numeral: &Numeral<'_>) -> bool
    ensures { result ≡ is_some (number_from false numeral.now) }
{
    numeral.to_u64().is_some() || numeral.to_float::<f64>(false).is_finite()
}

fn has_negative(numeral: &Numeral<'_>) -> bool
    ensures { result ≡ is_some (number_from true numeral.now) }
{
    if let Some(number) = numeral.to_i64(true) {
        if number < 0 {
            return true;
        }
    }
    numeral.to_float::<f64>(true).is_finite()
}

/// Whether a token of a number is one, since a number that is too large for a float is none.
pub(crate) fn has_number(text: &str) -> bool
    ensures { result ≡ is_some (number_of text.now) }
{
    let bytes = text.as_bytes();
    if has_minus(bytes) {
        has_negative(&Numeral::scan(&bytes[1..]))
    } else {
        has_unsigned(&Numeral::scan(bytes))
    }
}

/// Passes over the value that begins with this token, in which values may nest as deep, and answers whether there is one.
#[cycle(pass)]
pub(crate) fn pass_value(reader: &mut Reader<'_>, first: Token<'_>, depth: usize) -> bool
    ensures shorter { length reader.new ≤ length reader.old }
    ensures passes { IsPassedOver result (value_of_tokens depth (token_of first.entry ∷ reader.old)) reader.new }
{
    match first {
        Token::String(_) => true,
        Token::Bool(_) => true,
        Token::Null => true,
        Token::Number(text) => has_number(text),
        Token::BeginArray => depth > 0 && pass_items(reader, depth - 1),
        Token::BeginObject => depth > 0 && pass_members(reader, depth - 1),
        Token::EndObject => false,
        Token::EndArray => false,
        Token::Key(_) => false,
        Token::Bad => false,
    }
}

/// Passes over the items that are left of an array, and its closing bracket.
#[cycle(pass)]
pub(crate) fn pass_items(reader: &mut Reader<'_>, depth: usize) -> bool
    ensures shorter { length reader.new ≤ length reader.old }
    ensures passes { (n : ℕ) → length reader.old ≤ n → IsPassedOver result (items_within n depth reader.old) reader.new }
{
    'items: while !reader.take_end_array() {
        let Some(first) = reader.next() else {
            return false;
        };
        if !pass_value(reader, first, depth) {
            return false;
        }
    }
    true
}

/// Passes over the members of an object, and its closing brace.
#[cycle(pass)]
pub(crate) fn pass_members(reader: &mut Reader<'_>, depth: usize) -> bool
    ensures shorter { length reader.new ≤ length reader.old }
    ensures passes { IsPassedOver result (members_of_tokens depth reader.old) reader.new }
{
    'members: loop {
        let Ok(key) = reader.next_key() else {
            return false;
        };
        if key.is_none() {
            return true;
        }
        let Some(first) = reader.next() else {
            return false;
        };
        if !pass_value(reader, first, depth) {
            return false;
        }
    }
}
