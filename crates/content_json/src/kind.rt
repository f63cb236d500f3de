// What is against the items of an array.
ghost use Rattle.std.specs.Prelude.{◌≡◌, Some};
ghost use Rattle.serde_json.specs.View.{view, items_view};
ghost use Rattle.content_json.specs.Lists.{item_kind, is_of, item_cause, items_cause, array_cause};

use crate::fault::Cause;
use serde_json::Value;

// The kinds of values that a list may have.
#[derive(Clone, Copy, PartialEq, Eq, Debug, Drop)]
pub(crate) enum Kind {
    Text,
    Long,
    Truth,
}

pub(crate) fn item_kind(value: &Value) -> Option<Kind>
    ensures { result ≡ item_kind (view value.now) }
{
    match value {
        Value::Bool(_) => Some(Kind::Truth),
        Value::Number(_) => Some(Kind::Long),
        Value::String(_) => Some(Kind::Text),
        Value::Null | Value::Array(_) | Value::Object(_) => None,
    }
}

fn is_of(kind: Kind, value: &Value) -> bool
    ensures { result ≡ is_of kind (view value.now) }
{
    match kind {
        Kind::Text => value.is_string(),
        Kind::Long => value.is_number(),
        Kind::Truth => value.is_boolean(),
    }
}

fn item_cause(kind: Kind, item: &Value) -> Option<Cause>
    ensures { result ≡ item_cause kind (view item.now) }
{
    if item.is_number() && !item.is_i64() {
        Some(Cause::BadNumber)
    } else if is_of(kind, item) {
        None
    } else {
        Some(Cause::MixedArray)
    }
}

fn items_cause(kind: Kind, items: &[Value]) -> Option<Cause>
    ensures { result ≡ items_cause kind (items_view items.now) }
{
    for item in items {
        if let Some(cause) = item_cause(kind, item) {
            return Some(cause);
        }
    }
    None
}

/// What is against an array: the first item of another kind than the first item, or a bad number.
pub(crate) fn array_cause(items: &[Value]) -> Option<Cause>
    ensures { result ≡ array_cause (items_view items.now) }
{
    let Some(first) = items.first() else {
        return None;
    };
    match item_kind(first) {
        Some(kind) => items_cause(kind, items),
        None => Some(Cause::MixedArray),
    }
}
