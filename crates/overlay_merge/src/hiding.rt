// What the nodes along a path hide.
ghost use Rattle.std.specs.Prelude.{◌≡◌, ◌<◌, ◌≤◌, ◌+◌, [], IfOk, length, slice_index_or, if◌then◌else◌};
ghost use Rattle.overlay_merge.specs.Walk.{hiding_depths};
ghost use Rattle.std.specs.Option.{option_copied};
ghost use Rattle.sp_base.specs.Paths.{most_segments};
ghost use Rattle.overlay_merge.specs.Hiding.{lists_name, hides_kid, hides_resource, text_stands_for};

use resource_tree::Tree;
use sp_base::{Mem, Path, PropList, Value};
use std::alloc::Global;

fn stands_for(text: &str, name: &str) -> bool
    ensures { result ≡ text_stands_for name.now text.now }
{
    text == "*" || text == name
}

/// Whether a value is a text or texts of which one stands for a name.
pub(crate) fn has_name(value: Option<&Value>, name: &str) -> bool
    ensures { result ≡ lists_name (option_copied value.entry) name.now }
{
    match value {
        Some(Value::Text(text)) => stands_for(text.text(), name),
        Some(Value::Texts(texts)) => texts
            .as_slice()
            .iter()
            .any(|text| stands_for(text.text(), name)),
        _ => false,
    }
}

/// Whether properties hide their resource.
pub(crate) fn hides_resource(props: &PropList) -> bool
    ensures { result ≡ hides_resource props.now }
{
    match props.get("sling:hideResource") {
        Some(Value::Truth(hides)) => *hides,
        _ => false,
    }
}

/// Whether properties hide a kid of their resource.
pub(crate) fn hides_kid(props: &PropList, name: &str) -> bool
    ensures { result ≡ hides_kid name.now props.now }
{
    has_name(props.get("sling:hideChildren"), name)
}

/// The nodes on a path that hide something: of each kind the number of segments of the deepest, plus one, and 0 where there is none.
#[derive(Drop)]
pub struct HidingDepths {
    /// The number of the path's segments.
    pub depth: usize,
    pub resource: usize,
    pub kid: usize,
}

// Notes a depth, if something is hidden there.
fn latest(found: usize, k: usize, hides: bool) -> usize
    requires { k ≤ most_segments }
    ensures { result ≡ (if hides then k + 1 else found) }
{
    if hides { k + 1 } else { found }
}

// Whether properties hide the kid through which a path goes on.
fn hides_next(props: &PropList, path: &Path, k: usize) -> bool
    ensures { k < length path.now → result ≡ hides_kid (slice_index_or path.now k []) props.now }
{
    match path.seg(k) {
        Some(name) => hides_kid(props, name),
        None => false,
    }
}

/// Walks down a path once, as far as there are nodes.
pub(crate) fn hiding_depths(alloc: Global, tree: &Tree, path: &Path) -> Mem<HidingDepths>
    ensures { IfOk result (λ hiding. hiding ≡ hiding_depths tree.now path.now) }
{
    // `len` says that the parent of each node is there.
    let _ = tree.len();
    let depth = path.depth();
    let mut resource = 0;
    let mut kid = 0;
    for k in 0..depth {
        let Some(node) = tree.node(&path.first(alloc, k)?) else {
            return Ok(HidingDepths {
                depth,
                resource,
                kid,
            });
        };
        resource = latest(resource, k, hides_resource(&node.props));
        kid = latest(kid, k, hides_next(&node.props, path, k));
    }
    if let Some(node) = tree.node(path) {
        resource = latest(resource, depth, hides_resource(&node.props));
    }
    Ok(HidingDepths {
        depth,
        resource,
        kid,
    })
}
