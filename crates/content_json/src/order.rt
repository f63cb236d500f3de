// The member `:order`, which names the kids that come first.
ghost use Rattle.std.specs.Prelude.{◌≡◌, IfOk, [], true};
ghost use Rattle.serde_json.specs.View.{items_view, members_view};
ghost use Rattle.content_json.specs.Faults.{names_kids, has_good_order};

use crate::names::{ORDER, is_kid};
use serde_json::{Map, Value};
use sp_base::Mem;
use std::alloc::Global;
use std::collections::BTreeSet;

// Whether each item is the name of a kid, and none of those before it.
fn names_kids(alloc: Global, members: &Map<String, Value>, items: &[Value]) -> Mem<bool>
    ensures { IfOk result (λ good. good ≡ names_kids (members_view members.now.entries) [] (items_view items.now)) }
{
    let mut before = BTreeSet::new(alloc);
    for item in items {
        let Some(name) = item.as_str() else {
            return Ok(false);
        };
        if !is_kid(members, name) || !before.insert(name)? {
            return Ok(false);
        }
    }
    Ok(true)
}

/// Whether the member `:order`, where there is one, is an array of distinct names of kids.
pub(crate) fn has_good_order(alloc: Global, members: &Map<String, Value>) -> Mem<bool>
    ensures { IfOk result (λ good. good ≡ has_good_order (members_view members.now.entries)) }
{
    match members.get(ORDER) {
        Some(order) => match order.as_array() {
            Some(items) => names_kids(alloc, members, items.as_slice()),
            None => Ok(false),
        },
        None => Ok(true),
    }
}
