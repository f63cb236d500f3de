//! The places at which a search for scripts has to look: each place of a type is looked up once.
ghost use Rattle.std.specs.Prelude.{◌≡◌, ◌++◌, IfOk, IsTrue, OnOk, option_copied};
ghost use Rattle.sp_base.specs.Paths.{is_path};
ghost use Rattle.type_chain.specs.Chain.{super_at, super_text};
ghost use Rattle.type_chain.specs.ScriptPlaces.{AreScriptPlacesOf, script_place_at, script_places_of};

use crate::inheritance::own_super;
use crate::search_paths::places;
use crate::{TypeList, TypeName};
use resource_tree::Tree;
use sp_base::{Items, Mem, Path, TextBuf};
use std::alloc::Global;

/// A place of a type whose node has kids: elsewhere no script lies.
#[derive(Drop)]
pub struct ScriptPlace {
    /// The label of the type, which is its last segment.
    pub label: TextBuf,
    pub place: Path,
}

pub type ScriptPlaceList = Items<ScriptPlace>;

// Adds the script place at a place, and gives the text of the super type that stands there.
#[tactic(auto, unfolding(crate::specs::Chain::super_at))]
fn visit_place<'a>(
    alloc: Global,
    tree: &'a Tree,
    label: &str,
    place: &Path,
    script_places: &mut ScriptPlaceList,
) -> Mem<Option<&'a TextBuf>>
    ensures text { IfOk result (λ o. option_copied o ≡ super_at tree.entry.now place.now) }
    ensures script_places { OnOk result (script_places.new ≡ script_places.old ++ script_place_at tree.entry.now label.now place.now) }
{
    let Some(node) = tree.node(place) else {
        return Ok(None);
    };
    if !node.kids.is_empty() {
        script_places.push(ScriptPlace {
            label: TextBuf::of(alloc, label)?,
            place: place.duplicate(alloc)?,
        })?;
    }
    Ok(own_super(&node.props))
}

/// Adds the script places of a type, and gives the text of its super type.
#[tactic(auto, unfolding(crate::specs::Chain::super_text, crate::specs::ScriptPlaces::script_places_of))]
pub(crate) fn visit_type<'a>(
    alloc: Global,
    tree: &'a Tree,
    name: &TypeName,
    script_places: &mut ScriptPlaceList,
) -> Mem<Option<&'a TextBuf>>
    ensures text { IfOk result (λ o. option_copied o ≡ super_text tree.entry.now name.now) }
    ensures script_places { OnOk result (script_places.new ≡ script_places.old ++ script_places_of tree.entry.now name.now) }
    ensures valid { IsTrue (is_path name.now.segs) }
{
    let label = name.label();
    let places = places(alloc, name)?;
    let mut text = None;
    for place in places.as_slice() {
        let own = visit_place(alloc, tree, label, place, script_places)?;
        text = text.or(own);
    }
    Ok(text)
}

/// The script places of types, in their order.
pub fn type_script_places(alloc: Global, tree: &Tree, types: &TypeList) -> Mem<ScriptPlaceList>
    ensures { IfOk result (λ script_places. AreScriptPlacesOf tree.now types.now script_places) }
{
    let mut script_places = ScriptPlaceList::new(alloc);
    for name in types.as_slice() {
        visit_type(alloc, tree, name, &mut script_places)?;
    }
    Ok(script_places)
}
