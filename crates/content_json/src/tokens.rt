// The values of properties, read from the tokens of JSON.
ghost use Rattle.std.specs.Prelude.{◌≡◌, ◌<◌, ◌≤◌, ◌∷◌, None, true, false, length, IfOk, OnOk, MatchOption};
ghost use Rattle.json.specs.Reads.{token_of};
ghost use Rattle.serde_json.specs.Data.{boolean, string};
ghost use Rattle.serde_json.specs.Read.{number_from, number_of};
ghost use Rattle.property_json.specs.PropertyJson.{fits_i64};
ghost use Rattle.content_json.specs.Parts.{data_of_long};
ghost use Rattle.content_json.specs.Tokens.{is_begin_object, is_open_list, IsList, HasItemMore, Mixes, MixesWith, AddsToken, ReadsValueIfThere, ReadsItemsIfThere, IsLongOf, IsNumberPart, EndsUnfitFrom};

use crate::part::Part;
use crate::pass::{has_minus, has_number, pass_items, pass_value};
use fast_float::Numeral;
use json::{Reader, Token};
use sp_base::{LongList, Mem, TextBuf, TextList, TruthList, Value};
use std::alloc::Global;

// The number whose digits stand after a minus. `-0` is none, since JSON is read with a float there.
fn negative(numeral: &Numeral<'_>) -> Option<i64>
    ensures { IsLongOf (number_from true numeral.now) result }
{
    match numeral.to_i64(true) {
        Some(number) if number < 0 => Some(number),
        _ => None,
    }
}

fn unsigned(numeral: &Numeral<'_>) -> Option<i64>
    ensures { IsLongOf (number_from false numeral.now) result }
{
    numeral.to_i64(false)
}

// The number of a token, where it is written as a whole number of 64 bits with a sign.
fn long_of(text: &str) -> Option<i64>
    ensures { IsLongOf (number_of text.now) result }
{
    let bytes = text.as_bytes();
    if has_minus(bytes) {
        negative(&Numeral::scan(&bytes[1..]))
    } else {
        unsigned(&Numeral::scan(bytes))
    }
}

fn with_text(alloc: Global, list: Value, text: &str) -> Mem<Option<Value>>
    requires { IsList list }
    ensures { IfOk result (λ found. MatchOption found (MixesWith list (string text.now)) (HasItemMore list (string text.now))) }
{
    match list {
        Value::Texts(mut texts) => {
            texts.push(TextBuf::of(alloc, text)?)?;
            Ok(Some(Value::Texts(texts)))
        }
        _other => Ok(None),
    }
}

// Whether an array has no item yet, so that its kind is open.
fn is_open(list: &Value) -> bool
    ensures { result ≡ is_open_list list.now }
{
    match list {
        Value::Texts(texts) => texts.is_empty(),
        _ => false,
    }
}

fn with_long(alloc: Global, list: Value, long: i64) -> Mem<Option<Value>>
    requires list { IsList list }
    requires fits { fits_i64 long ≡ true }
    ensures { IfOk result (λ found. MatchOption found (MixesWith list (data_of_long long)) (HasItemMore list (data_of_long long))) }
{
    match list {
        Value::Longs(mut longs) => {
            longs.push(long)?;
            Ok(Some(Value::Longs(longs)))
        }
        other => {
            if !is_open(&other) {
                return Ok(None);
            }
            let mut longs = LongList::new(alloc);
            longs.push(long)?;
            Ok(Some(Value::Longs(longs)))
        }
    }
}

fn with_truth(alloc: Global, list: Value, truth: bool) -> Mem<Option<Value>>
    requires { IsList list }
    ensures { IfOk result (λ found. MatchOption found (MixesWith list (boolean truth)) (HasItemMore list (boolean truth))) }
{
    match list {
        Value::Truths(mut truths) => {
            truths.push(truth)?;
            Ok(Some(Value::Truths(truths)))
        }
        other => {
            if !is_open(&other) {
                return Ok(None);
            }
            let mut truths = TruthList::new(alloc);
            truths.push(truth)?;
            Ok(Some(Value::Truths(truths)))
        }
    }
}

// A list with one item more, of the kind of those before it. There is none where the item that begins with this token is no such.
fn with_item(alloc: Global, list: Value, item: Token<'_>) -> Mem<Option<Value>>
    requires { IsList list }
    ensures { IfOk result (λ found. MatchOption found (Mixes list (token_of item.entry)) (AddsToken list (token_of item.entry))) }
{
    match item {
        Token::String(text) => with_text(alloc, list, text),
        Token::Number(text) => match long_of(text) {
            Some(long) => with_long(alloc, list, long),
            None => Ok(None),
        },
        Token::Bool(truth) => with_truth(alloc, list, truth),
        Token::BeginObject => Ok(None),
        Token::EndObject => Ok(None),
        Token::BeginArray => Ok(None),
        Token::EndArray => Ok(None),
        Token::Key(_) => Ok(None),
        Token::Null => Ok(None),
        Token::Bad => Ok(None),
    }
}

// What is made of a list of which no value comes, from the item on that begins with this token.
fn unfit_list(reader: &mut Reader<'_>, item: Token<'_>, depth: usize) -> Option<Part>
    ensures shorter { length reader.new ≤ length reader.old }
    ensures read { EndsUnfitFrom depth (token_of item.entry) reader.old reader.new result }
{
    if !pass_value(reader, item, depth) {
        return None;
    }
    if !pass_items(reader, depth) {
        return None;
    }
    Some(Part::Unfit)
}

// The list after its opening bracket, in whose items values may nest as deep.
fn list(alloc: Global, reader: &mut Reader<'_>, depth: usize) -> Mem<Option<Part>>
    ensures shorter { OnOk result (length reader.new ≤ length reader.old) }
    ensures read { IfOk result (ReadsItemsIfThere depth reader.old reader.new) }
{
    // An array without items is one of texts.
    let mut list = Value::Texts(TextList::new(alloc));
    'items: while !reader.take_end_array() {
        let Some(item) = reader.next() else {
            return Ok(None);
        };
        match with_item(alloc, list, item)? {
            Some(longer) => list = longer,
            None => return Ok(unfit_list(reader, item, depth)),
        }
    }
    Ok(Some(Part::Value(list)))
}

// What is made of a number. There is no answer where it is too large for a float.
fn number_part(text: &str) -> Option<Part>
    ensures { MatchOption result (number_of text.now ≡ None) (IsNumberPart (number_of text.now)) }
{
    match long_of(text) {
        Some(long) => Some(Part::Value(Value::Long(long))),
        None => {
            if has_number(text) {
                Some(Part::Unfit)
            } else {
                None
            }
        }
    }
}

pub(crate) fn is_begin_object(first: Token<'_>) -> bool
    ensures { result ≡ is_begin_object (token_of first.entry) }
{
    match first {
        Token::BeginObject => true,
        Token::EndObject
        | Token::BeginArray
        | Token::EndArray
        | Token::Key(_)
        | Token::String(_)
        | Token::Number(_)
        | Token::Bool(_)
        | Token::Null
        | Token::Bad => false,
    }
}

/// What is made of a value that begins with this token and isn't an object: a text, a truth, a whole number of 64 bits, a list of
/// one kind of these, or nothing of `null`. There is no answer where the tokens begin with no value.
pub(crate) fn value_part(
    alloc: Global,
    reader: &mut Reader<'_>,
    first: Token<'_>,
    depth: usize,
) -> Mem<Option<Part>>
    requires nests { 0 < depth }
    requires no_object { is_begin_object (token_of first) ≡ false }
    ensures shorter { OnOk result (length reader.new ≤ length reader.old) }
    ensures read { IfOk result (ReadsValueIfThere depth (token_of first.entry ∷ reader.old) reader.new) }
{
    match first {
        Token::Null => Ok(Some(Part::Nothing)),
        Token::String(text) => Ok(Some(Part::Value(Value::Text(TextBuf::of(alloc, text)?)))),
        Token::Bool(truth) => Ok(Some(Part::Value(Value::Truth(truth)))),
        Token::Number(text) => Ok(number_part(text)),
        Token::BeginArray => list(alloc, reader, depth - 1),
        Token::BeginObject => Ok(None),
        Token::EndObject => Ok(None),
        Token::EndArray => Ok(None),
        Token::Key(_) => Ok(None),
        Token::Bad => Ok(None),
    }
}
