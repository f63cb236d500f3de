//! Where a class of a glob isn't closed, and that an empty list allows nothing. What globs match is asked for through the program (examples/runs/globs).
use glob_rules::{Glob, GlobFault, allows};
use sp_base::Items;
use std::alloc::Global;

fn is_open_at(alloc: Global, glob: &str, place: usize) -> bool {
    matches!(Glob::read(alloc, glob), Err(GlobFault::OpenClass(found)) if found == place)
}

// A glob with a class that isn't closed, and where it begins.
const OPEN_CLASSES: [(&str, usize); 5] = [
    ("[", 0),
    ("a[b", 1),
    ("[a][", 3),
    ("ä[!", 2),
    ("[a][b[c", 3),
];

#[test]
fn open_classes(rt: HostRuntime) {
    for (glob, place) in &OPEN_CLASSES {
        assert!(rt; is_open_at(rt.alloc(), *glob, *place));
    }
}

#[test]
fn an_empty_list_allows_nothing(rt: HostRuntime) {
    let rules = Items::new(rt.alloc());
    assert!(rt; !allows(&rules, "/a"));
}
