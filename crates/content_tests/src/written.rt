//! The text that a tree is written as. What is read, and each fault, are shown through the program (examples/runs, examples/refused/contents).
use crate::unordered::UNORDERED;
use content_json::{read_tree, write_tree};
use resource_tree::Tree;
use std::alloc::Global;
use std::hash::RandomState;
use std::test::Fail;

fn is_text(alloc: Global, tree: &Tree, wanted: &str) -> bool {
    matches!(write_tree(alloc, tree), Ok(bytes) if bytes.bytes() == wanted.as_bytes())
}

// Whether the tree of a content is written so.
fn is_written(alloc: Global, seeds: RandomState, content: &str, wanted: &str) -> bool {
    match read_tree(alloc, seeds, content.as_bytes()) {
        Ok(tree) => is_text(alloc, &tree, wanted),
        Err(_) => false,
    }
}

// Each content, and how its tree is written.
const WRITTEN: &[(&str, &str)] = &[
    ("{}", "{}"),
    (
        r#"{"content":{"en":{"title":"Hello","jcr:title":"Hi"}}}"#,
        r#"{":order":["content"],"content":{":order":["en"],"en":{"jcr:title":"Hi","title":"Hello"}}}"#,
    ),
    (
        r#"{ "t":"x", "n":-9223372036854775808, "b":true }"#,
        r#"{"b":true,"n":-9223372036854775808,"t":"x"}"#,
    ),
    (
        r#"{"ts":["a",""],"ns":[1,-2],"bs":[false],"e":[],"v":null}"#,
        r#"{"bs":[false],"e":[],"ns":[1,-2],"ts":["a",""]}"#,
    ),
    (r#"{"k":{},"z":1}"#, r#"{"z":1,":order":["k"],"k":{}}"#),
    (
        r#"{"a\"b":{"p\\q":"\u00e9/\u0001"},"\u00e9":{}}"#,
        r#"{":order":["a\"b","é"],"a\"b":{"p\\q":"é/\u0001"},"é":{}}"#,
    ),
    (
        r#"{"c":{},"a":{},"b":{"x":{}},":order":["c","b"]}"#,
        r#"{":order":["c","b","a"],"c":{},"b":{":order":["x"],"x":{}},"a":{}}"#,
    ),
];

// What was written is written as it is.
fn is_written_again(alloc: Global, seeds: RandomState, content: &str, wanted: &str) -> bool {
    is_written(alloc, seeds, content, wanted) && is_written(alloc, seeds, wanted, wanted)
}

#[test]
fn writes_what_it_reads(rt: HostRuntime) -> Result<(), Fail> {
    let seeds = RandomState::new(&rt)?;
    for (content, wanted) in WRITTEN {
        assert!(rt; is_written_again(rt.alloc(), seeds, *content, *wanted));
    }
    Ok(())
}

#[test]
fn writes_what_has_no_order(rt: HostRuntime) -> Result<(), Fail> {
    let seeds = RandomState::new(&rt)?;
    for (content, wanted) in UNORDERED {
        assert!(rt; is_written_again(rt.alloc(), seeds, *content, *wanted));
    }
    Ok(())
}
