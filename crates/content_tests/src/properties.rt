//! A property list, written. Properties of each kind are shown through the program (examples/runs/json_values).
use property_json::object_text;
use sp_base::{Mem, PropList, TextBuf, Value};
use std::alloc::Global;

fn put_properties(alloc: Global, props: &mut PropList) -> Mem<()> {
    let text = TextBuf::of(alloc, "\"\u{e9}/")?;
    props.put(alloc, "z", Value::Text(text))?;
    props.put(alloc, "n", Value::Long(i64::MIN))
}

fn is_text(alloc: Global, props: &PropList, wanted: &str) -> bool {
    matches!(object_text(alloc, props), Ok(text) if text.text() == wanted)
}

fn are_written(alloc: Global) -> bool {
    let mut props = PropList::new(alloc);
    is_text(alloc, &props, "{}")
        && put_properties(alloc, &mut props).is_ok()
        && is_text(alloc, &props, r#"{"n":-9223372036854775808,"z":"\"é/"}"#)
}

#[test]
fn writes_properties(rt: HostRuntime) {
    assert!(rt; are_written(rt.alloc()));
}
