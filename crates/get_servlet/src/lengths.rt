// How many bytes of JSON properties take at the least, from the lengths of their texts, before any is written.
ghost use Rattle.std.specs.Prelude.{◌≤◌};
ghost use Rattle.json.specs.Json.{array, string};
ghost use Rattle.json.specs.Tree.{json_tokens};
ghost use Rattle.property_json.specs.PropertyJson.{items_of, json_of_value, property_tokens};
ghost use Rattle.get_servlet.specs.Steps.{bytes_in};

use sp_base::{PropList, TextBuf, Value};

/// The bytes of `true`.
const TRUTH_BYTES: usize = 4;

/// The two quotes of a text.
const QUOTE_BYTES: usize = 2;

fn texts_bytes(texts: &[TextBuf]) -> usize
    ensures { result ≤ bytes_in (json_tokens (array (items_of string texts.now))) }
{
    let mut bytes = 0usize;
    for text in texts {
        bytes = bytes.saturating_add(text.text().len().saturating_add(QUOTE_BYTES));
    }
    bytes
}

// Each number has a digit, and each truth more than one byte.
fn value_bytes(value: &Value) -> usize
    ensures { result ≤ bytes_in (json_tokens (json_of_value value.now)) }
{
    match value {
        Value::Text(text) => text.text().len(),
        Value::Long(_) => 1,
        Value::Truth(_) => TRUTH_BYTES,
        Value::Texts(texts) => texts_bytes(texts.as_slice()),
        Value::Longs(numbers) => numbers.len(),
        Value::Truths(truths) => truths.len(),
    }
}

/// The least that properties take.
pub(crate) fn properties_bytes(props: &PropList) -> usize
    ensures { result ≤ bytes_in (property_tokens props.now) }
{
    let mut bytes = 0usize;
    for place in 0..props.len() {
        if let Some((name, value)) = props.at(place) {
            bytes = bytes
                .saturating_add(name.len())
                .saturating_add(value_bytes(value));
        }
    }
    bytes
}
