//! Overlays and overrides that hide nothing.

use resource_tree::{Node, Tree};
use sp_base::{Items, Mem, Path, PathList, TextBuf, Value, value_texts};
use std::alloc::Global;
use type_chain::place_of;

/// How many layers below a node are looked at.
const MOST_LAYERS: usize = 32;

/// A property of a node that is to hide something of the layers below, and hides nothing.
#[derive(Drop)]
pub struct IdleHiding {
    pub node: Path,
    pub property: TextBuf,
}

pub type IdleHidingList = Items<IdleHiding>;

// The library's path that a path below /apps overlays.
fn overlaid(alloc: Global, path: &Path) -> Mem<Option<Path>> {
    if path.seg(0) != Some("apps") {
        return Ok(None);
    }
    let Some(libs) = Path::root(alloc).child_or_none(alloc, "libs")? else {
        return Ok(None);
    };
    libs.join_rest_or_none(alloc, path, 1)
}

// The path of the layer below, where the deepest node on a path with a super type names one.
fn overridden(alloc: Global, tree: &Tree, path: &Path) -> Mem<Option<Path>> {
    let deepest = path.depth();
    for passed in 0..deepest {
        let depth = deepest - passed;
        if let Some(node) = tree.node(&path.first(alloc, depth)?) {
            if let Some(name) = node.props.text("sling:resourceSuperType") {
                let Some(place) = place_of(alloc, tree, name.text())? else {
                    return Ok(None);
                };
                return place.join_rest_or_none(alloc, path, depth);
            }
        }
    }
    Ok(None)
}

// The paths whose nodes a node at a path may hide something of.
fn layers_below(alloc: Global, tree: &Tree, path: &Path) -> Mem<PathList> {
    let mut layers = Items::new(alloc);
    if let Some(library) = overlaid(alloc, path)? {
        layers.push(library)?;
    }
    let mut next = overridden(alloc, tree, path)?;
    for _ in 0..MOST_LAYERS {
        let Some(layer) = next else {
            break;
        };
        next = overridden(alloc, tree, &layer)?;
        layers.push(layer)?;
    }
    Ok(layers)
}

// Whether a node has a property, or a kid, of a name; a star stands for any.
fn has_property(node: &Node, name: &str) -> bool {
    node.props.get(name).is_some() || (name == "*" && !node.props.is_empty())
}

fn has_kid(node: &Node, name: &str) -> bool {
    for kid in node.kids.as_slice() {
        if kid.text() == name || name == "*" {
            return true;
        }
    }
    false
}

// What a property of a node is to hide of the layers below.
#[derive(Clone, Copy, Drop)]
enum Hidden {
    Properties,
    Children,
}

fn hides_of(node: &Node, hidden: Hidden, names: &[TextBuf]) -> bool {
    for name in names {
        let there = match hidden {
            Hidden::Properties => has_property(node, name.text()),
            Hidden::Children => has_kid(node, name.text()),
        };
        if there {
            return true;
        }
    }
    false
}

fn hides_any(tree: &Tree, layers: &PathList, hidden: Hidden, names: &[TextBuf]) -> bool {
    for layer in layers.as_slice() {
        if let Some(node) = tree.node(layer) {
            if hides_of(node, hidden, names) {
                return true;
            }
        }
    }
    false
}

// Whether a `sling:hideResource` is no truth value. One that is true hides its own layer, if no lower one.
fn hides_no_resource(node: &Node) -> bool {
    match node.props.get("sling:hideResource") {
        Some(Value::Truth(_)) | None => false,
        Some(_) => true,
    }
}

// Tells a property that hides nothing.
fn tell_property(told: &mut IdleHidingList, alloc: Global, path: &Path, property: &str) -> Mem<()> {
    told.push(IdleHiding {
        node: path.duplicate(alloc)?,
        property: TextBuf::of(alloc, property)?,
    })
}

fn tell_names(
    told: &mut IdleHidingList,
    alloc: Global,
    tree: &Tree,
    row: (&Path, &Node),
    hidden: Hidden,
) -> Mem<()> {
    let property = match hidden {
        Hidden::Properties => "sling:hideProperties",
        Hidden::Children => "sling:hideChildren",
    };
    let names = value_texts(row.1.props.get(property));
    if !names.is_empty() && !hides_any(tree, &layers_below(alloc, tree, row.0)?, hidden, names) {
        tell_property(told, alloc, row.0, property)?;
    }
    Ok(())
}

fn tell_resource(told: &mut IdleHidingList, alloc: Global, row: (&Path, &Node)) -> Mem<()> {
    if hides_no_resource(row.1) {
        tell_property(told, alloc, row.0, "sling:hideResource")?;
    }
    Ok(())
}

/// The properties that are to hide something of an overlay or an override, and hide nothing, in no order that is promised.
pub fn idle_hidings(alloc: Global, tree: &Tree) -> Mem<IdleHidingList> {
    let mut told = Items::new(alloc);
    let rows = tree.rows(alloc)?;
    for row in rows.as_slice() {
        tell_resource(&mut told, alloc, (row.0, row.1))?;
        tell_names(&mut told, alloc, tree, (row.0, row.1), Hidden::Properties)?;
        tell_names(&mut told, alloc, tree, (row.0, row.1), Hidden::Children)?;
    }
    Ok(told)
}
