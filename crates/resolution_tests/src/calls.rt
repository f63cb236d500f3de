//! The calls that the program doesn't make: the chain of a resource, the script of a chain, and the kids of a merged resource by themselves.
use overlay_merge::merged_kids;
use resource_tree::Tree;
use script_rank::first_script;
use sp_base::{Mem, Path, PropList, TextBuf, TextList, Value};
use std::alloc::Global;
use std::hash::RandomState;
use std::io;
use tree_draft::at_once;
use type_chain::{TypeList, chain};
use url_split::Parts;

// A type in both search paths, with a script.
const NODES: [&str; 7] = [
    "/libs",
    "/libs/t",
    "/libs/t/low",
    "/apps",
    "/apps/t",
    "/apps/t/html.html",
    "/apps/t/html.html/jcr:content",
];

fn create(alloc: Global, tree: &mut Tree, path: &str) -> bool {
    match Path::read(alloc, path) {
        Ok(path) => at_once::create(alloc, tree, &path).is_ok(),
        Err(_) => false,
    }
}

fn create_all(alloc: Global, tree: &mut Tree) -> bool {
    for path in &NODES {
        if !create(alloc, tree, *path) {
            return false;
        }
    }
    true
}

fn put_script(alloc: Global, tree: &mut Tree) -> bool {
    let text = Value::Text(TextBuf::from(String::new(alloc)));
    match Path::read(alloc, "/apps/t/html.html/jcr:content") {
        Ok(path) => at_once::set(alloc, tree, &path, "jcr:data", text).is_ok(),
        Err(_) => false,
    }
}

fn put_type(alloc: Global, props: &mut PropList) -> bool {
    match TextBuf::of(alloc, "t") {
        Ok(name) => props
            .put(alloc, "sling:resourceType", Value::Text(name))
            .is_ok(),
        Err(_) => false,
    }
}

// The parts of a request for the extension `html`.
fn parts(alloc: Global) -> Mem<Parts> {
    Ok(Parts {
        path: Path::root(alloc),
        selectors: TextList::new(alloc),
        extension: TextBuf::of(alloc, "html")?,
        suffix: TextBuf::from(String::new(alloc)),
    })
}

fn is_script(alloc: Global, tree: &Tree, chain: &TypeList) -> Mem<bool> {
    let parts = parts(alloc)?;
    let script = first_script(alloc, tree, chain, &parts)?;
    Ok(matches!(script, Some(path) if path.as_text() == "/apps/t/html.html"))
}

// Its own type and that of the default servlets.
fn has_chain(alloc: Global, tree: &Tree, props: &PropList) -> Mem<bool> {
    let chain = chain(alloc, tree, props)?;
    Ok(chain.len() == 2 && is_script(alloc, tree, &chain)?)
}

fn are_named(kids: &TextList) -> bool {
    match kids.as_slice() {
        [low, script] => low.text() == "low" && script.text() == "html.html",
        _ => false,
    }
}

fn has_kids(alloc: Global, tree: &Tree) -> bool {
    match Path::read(alloc, "/mnt/overlay/t") {
        Ok(path) => matches!(merged_kids(alloc, tree, &path), Ok(kids) if are_named(&kids)),
        Err(_) => false,
    }
}

fn answers(alloc: Global, tree: &mut Tree, props: &mut PropList) -> bool {
    create_all(alloc, tree)
        && put_script(alloc, tree)
        && put_type(alloc, props)
        && matches!(has_chain(alloc, tree, props), Ok(true))
        && has_kids(alloc, tree)
}

fn small_tree_answers(alloc: Global, seeds: RandomState) -> bool {
    let mut props = PropList::new(alloc);
    match Tree::new(alloc, seeds) {
        Ok(mut tree) => answers(alloc, &mut tree, &mut props),
        Err(_) => false,
    }
}

#[test]
fn a_small_tree_answers(rt: HostRuntime) -> io::Result<()> {
    let seeds = RandomState::new(&rt)?;
    assert!(rt; small_tree_answers(rt.alloc(), seeds));
    Ok(())
}
