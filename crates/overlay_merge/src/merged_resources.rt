// The resources that are merged at a path: those of the layers that aren't cut.
ghost use Rattle.std.specs.Prelude.{◌≡◌, ◌++◌, IfOk, OnOk, map};
ghost use Rattle.overlay_merge.specs.Hiding.{merged_from};
ghost use Rattle.overlay_merge.specs.Walk.{AreNodesOf, is_screened, reaches, screened_layer, screens, some_screens, unscreened_resource, unscreened_resources};

use crate::Layer;
use crate::hiding::{HidingDepths, hiding_depths};
use crate::layers::{has_node, layers_of};
use resource_tree::{Look, Res, Tree};
use sp_base::{Mem, Path};
use std::alloc::Global;

/// A layer, and what the nodes on its path hide.
#[derive(Drop)]
pub struct ScreenedLayer {
    pub layer: Layer,
    pub hiding: HidingDepths,
}

fn reaches(hiding: &HidingDepths, n: usize, found: usize) -> bool
    ensures { result ≡ reaches hiding.now n found }
{
    hiding.depth.saturating_sub(n) < found
}

// Whether a layer hides one that has its last `n` segments in common with it.
fn screens(upper: &ScreenedLayer, n: usize) -> bool
    ensures { result ≡ screens n upper.now }
{
    reaches(&upper.hiding, n, upper.hiding.resource) || reaches(&upper.hiding, n, upper.hiding.kid)
}

#[tactic(auto, unfolding(crate::specs::Walk::some_screens))]
fn some_screens(common: usize, above: &[ScreenedLayer]) -> bool
    ensures { result ≡ some_screens common above.now }
{
    let mut n = common;
    for upper in above {
        if screens(upper, n) {
            return true;
        }
        n = n.min(upper.layer.common);
    }
    false
}

#[tactic(auto, unfolding(crate::specs::Walk::is_screened))]
fn is_screened(layer: &ScreenedLayer, above: &[ScreenedLayer]) -> bool
    ensures { result ≡ is_screened layer.now above.now }
{
    reaches(&layer.hiding, layer.layer.own, layer.hiding.resource)
        || some_screens(layer.layer.common, above)
}

fn screened_layers(alloc: Global, tree: &Tree, layers: Vec<Layer>) -> Mem<Vec<ScreenedLayer>>
    ensures { IfOk result (λ list. list.items ≡ map (screened_layer tree.now) layers.items) }
{
    let mut list = Vec::new(alloc);
    for layer in layers {
        let hiding = hiding_depths(alloc, tree, &layer.path)?;
        list.push(ScreenedLayer { layer, hiding })?;
    }
    Ok(list)
}

// Adds what is at a layer, if that isn't cut.
fn add_unscreened<'a>(
    alloc: Global,
    tree: &'a Tree,
    layer: &ScreenedLayer,
    above: &[ScreenedLayer],
    list: &mut Vec<Res<'a>>,
) -> Mem<()>
    ensures { OnOk result (list.new.items ≡ list.old.items ++ unscreened_resource tree.entry.now layer.now above.now) }
{
    if is_screened(layer, above) {
        return Ok(());
    }
    if let Some(res) = tree.res(alloc, &layer.layer.path)? {
        list.push(res)?;
    }
    Ok(())
}

#[tactic(auto, unfolding(crate::specs::Walk::unscreened_resources))]
fn unscreened_of<'a>(alloc: Global, tree: &'a Tree, layers: &[ScreenedLayer]) -> Mem<Vec<Res<'a>>>
    ensures { IfOk result (λ list. list.items ≡ unscreened_resources tree.now layers.now) }
{
    let mut list = Vec::new(alloc);
    for k in 0..layers.len() {
        add_unscreened(alloc, tree, &layers[k], &layers[k + 1..], &mut list)?;
    }
    Ok(list)
}

/// The resources that are merged at a path, the lowest first.
pub(crate) fn merged_from<'a>(alloc: Global, tree: &'a Tree, path: &Path) -> Mem<Vec<Res<'a>>>
    ensures layers { IfOk result (λ list. list.items ≡ merged_from tree.now path.now) }
    ensures nodes { IfOk result (λ list. AreNodesOf tree.now list.items) }
{
    // `depth` says that the path is one.
    let _ = path.depth();
    let layers = layers_of(alloc, tree, path)?;
    if !has_node(tree, &layers) {
        return Ok(Vec::new(alloc));
    }
    let screened = screened_layers(alloc, tree, layers)?;
    let list = unscreened_of(alloc, tree, &screened)?;
    Ok(list)
}
