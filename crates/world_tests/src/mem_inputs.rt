//! Inputs in memory: what they give, and which of their calls fail.
use outside_world::{InputFault, Inputs, MemInputs};
use sp_base::{ByteBuf, CallList, Mem};
use std::alloc::Global;

fn is_whole(read: Result<ByteBuf, InputFault>, wanted: &str) -> bool {
    matches!(read, Ok(bytes) if bytes.bytes() == wanted.as_bytes())
}

fn has_failed(read: Result<ByteBuf, InputFault>) -> bool {
    matches!(read, Err(InputFault::Failed))
}

fn inputs(alloc: Global, files: &[(&str, &str)]) -> Mem<MemInputs> {
    let mut fails = CallList::new(alloc);
    fails.push(2)?;
    let mut inputs = MemInputs::new(alloc, fails);
    for (name, text) in files {
        inputs.add(name, text.as_bytes())?;
    }
    Ok(inputs)
}

const FILES: &[(&str, &str)] = &[("a", "1"), ("", "empty"), ("a", "2"), ("b", "")];

fn gives_files(alloc: Global) -> bool {
    match inputs(alloc, FILES) {
        Ok(mut inputs) => {
            is_whole(inputs.whole(alloc, "a"), "2")
                && has_failed(inputs.whole(alloc, "a"))
                && is_whole(inputs.whole(alloc, "b"), "")
                && is_whole(inputs.whole(alloc, ""), "empty")
                && has_failed(inputs.whole(alloc, "c"))
        }
        Err(_) => false,
    }
}

#[test]
fn inputs_in_memory(rt: HostRuntime) {
    assert!(rt; gives_files(rt.alloc()));
}
