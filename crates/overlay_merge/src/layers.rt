// The layers of a merged path.
ghost use Rattle.std.specs.Prelude.{◌≡◌, [], Some, None, IfOk, true, drop, option_map};
ghost use Rattle.std.specs.Option.{option_copied};
ghost use Rattle.sp_base.specs.Paths.{seg_ok};
ghost use Rattle.overlay_merge.specs.Layers.{base_at, base_of, descent, has_layer, has_node, layer_below, layers_of, most_layers, overlay_layer, overlay_layers, override_layer, override_layers, deeper_base};
ghost use Rattle.overlay_merge.specs.Roots.{root_depth};

use crate::roots::{is_overlay, is_override};
use resource_tree::Tree;
use sp_base::{Mem, NoMemory, Path, TextBuf};
use std::alloc::Global;
use type_chain::place_of;

/// The most layers of a path.
const MOST_LAYERS: usize = 32;

/// How many segments each of the two roots has.
pub(crate) const ROOT_DEPTH: usize = 2;

/// A path that a merged path stands for.
#[derive(Drop)]
pub struct Layer {
    pub path: Path,
    /// How many steps above its path the layer itself may be hidden.
    pub own: usize,
    /// How many last segments its path has in common with that of the next layer above.
    pub common: usize,
}

// The deeper of two nodes that name a super type.
fn deeper<'a>(
    base: Option<(usize, &'a TextBuf)>,
    n: usize,
    text: Option<&'a TextBuf>,
) -> Option<(usize, &'a TextBuf)>
    ensures { option_map (λ b. base_at b.0 b.1.now) result ≡ deeper_base n (option_copied text.entry) (option_map (λ b. base_at b.0 b.1.now) base.entry) }
{
    match text {
        Some(text) => Some((n, text)),
        None => base,
    }
}

/// How many first segments of a path lead to the deepest node on it that names a super type, and the text that does.
fn base_of<'a>(alloc: Global, tree: &'a Tree, path: &Path) -> Mem<Option<(usize, &'a TextBuf)>>
    ensures { IfOk result (λ o. option_map (λ b. base_at b.0 b.1.now) o ≡ base_of tree.now path.now) }
{
    // `len` says that the parent of each node is there.
    let _ = tree.len();
    let mut base = None;
    for n in 0..path.depth() + 1 {
        let Some(node) = tree.node(&path.first(alloc, n)?) else {
            return Ok(base);
        };
        base = deeper(base, n, node.props.text("sling:resourceSuperType"));
    }
    Ok(base)
}

/// The layer below a path.
fn layer_below(alloc: Global, tree: &Tree, path: &Path) -> Mem<Option<Layer>>
    ensures { IfOk result (λ o. o ≡ layer_below tree.now path.now) }
{
    let Some((n, text)) = base_of(alloc, tree, path)? else {
        return Ok(None);
    };
    let Some(place) = place_of(alloc, tree, text.text())? else {
        return Ok(None);
    };
    match place.join_rest_or_none(alloc, path, n)? {
        Some(below) => Ok(Some(Layer {
            own: below.depth(),
            common: path.depth().saturating_sub(n),
            path: below,
        })),
        None => Ok(None),
    }
}

fn has_layer(layers: &[Layer], path: &Path) -> bool
    ensures { result ≡ has_layer layers.now path.now }
{
    layers.iter().any(|layer| layer.path == *path)
}

/// The layers from a path downwards.
fn descent(alloc: Global, tree: &Tree, path: Path) -> Mem<Vec<Layer>>
    ensures { IfOk result (λ layers. layers.items ≡ descent tree.now most_layers [] (Some (override_layer 0 path))) }
{
    let mut layers = Vec::new(alloc);
    let mut next = Some(Layer {
        own: path.depth(),
        common: 0,
        path,
    });
    while let Some(layer) = next {
        if layers.len() >= MOST_LAYERS || has_layer(&layers, &layer.path) {
            return Ok(layers);
        }
        next = layer_below(alloc, tree, &layer.path)?;
        layers.push(layer)?;
    }
    Ok(layers)
}

// The layer of an overlay below a search path.
fn overlay_layer(alloc: Global, path: &Path, top: &str) -> Mem<Layer>
    requires { seg_ok top.now ≡ true }
    ensures { IfOk result (λ layer. layer ≡ overlay_layer (drop root_depth path.now) top.now) }
{
    // `depth` says that the path is one.
    let _ = path.depth();
    let place = match Path::root(alloc).child(alloc, top) {
        Ok(place) => place,
        Err(_) => return Err(NoMemory),
    };
    let Some(path) = place.join_rest_or_none(alloc, path, ROOT_DEPTH)? else {
        unreachable!()
    };
    let below = path.depth() - 1;
    Ok(Layer {
        path,
        own: below,
        common: below,
    })
}

// The layers of an overlay.
fn overlay_layers(alloc: Global, path: &Path) -> Mem<Vec<Layer>>
    ensures { IfOk result (λ layers. layers.items ≡ overlay_layers (drop root_depth path.now)) }
{
    let mut layers = Vec::new(alloc);
    if path.depth() <= ROOT_DEPTH {
        return Ok(layers);
    }
    layers.push(overlay_layer(alloc, path, "libs")?)?;
    layers.push(overlay_layer(alloc, path, "apps")?)?;
    Ok(layers)
}

// The layers of an override.
fn override_layers(alloc: Global, tree: &Tree, path: &Path) -> Mem<Vec<Layer>>
    ensures { IfOk result (λ layers. layers.items ≡ override_layers tree.now (drop root_depth path.now)) }
{
    if path.depth() <= ROOT_DEPTH {
        return Ok(Vec::new(alloc));
    }
    let root = Path::root(alloc);
    let Some(highest) = root.join_rest_or_none(alloc, path, ROOT_DEPTH)? else {
        unreachable!()
    };
    let mut layers = descent(alloc, tree, highest)?;
    layers.reverse();
    Ok(layers)
}

/// The layers of a merged path, the lowest first.
#[tactic(auto, unfolding(crate::specs::Layers::layers_of))]
pub(crate) fn layers_of(alloc: Global, tree: &Tree, path: &Path) -> Mem<Vec<Layer>>
    ensures { IfOk result (λ layers. layers.items ≡ layers_of tree.now path.now) }
{
    if is_overlay(path) {
        return overlay_layers(alloc, path);
    }
    if is_override(path) {
        return override_layers(alloc, tree, path);
    }
    Ok(Vec::new(alloc))
}

/// Whether a node is at one of the layers.
pub(crate) fn has_node(tree: &Tree, layers: &[Layer]) -> bool
    ensures { result ≡ has_node tree.now layers.now }
{
    layers.iter().any(|layer| tree.node(&layer.path).is_some())
}
