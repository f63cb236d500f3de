//! The search for the script that ranks first: in the order of the ranks, at the script places alone.
ghost use Rattle.std.specs.Prelude.{◌≡◌, IfOk, IfSome, IfNone};
ghost use Rattle.type_chain.specs.Chain.{chain_of};
ghost use Rattle.script_rank.specs.Ranking.{HasNoCandidate, IsFirstScript};
ghost use Rattle.script_rank.specs.Search.{search_result};
ghost use Rattle.script_rank.specs.ScriptPlaceSearch.{at_script_place, at_script_places, script_place_search};

use crate::Naming;
use crate::lookup::Scripts;
use crate::naming::namings;
use crate::script::script_below;
use crate::spelling::spell;
use resource_tree::Tree;
use sp_base::{Mem, Path, PropList};
use std::alloc::Global;
use type_chain::{ScriptPlace, TypeList, chain_with_script_places, type_script_places};
use url_split::Parts;

/// The script that renders a resource with this chain of types: of the candidates the one that ranks first. It names more of the
/// request's selectors, then its extension, then the type's label; it stands at the nearer type, then at the earlier place, and is spelled
/// with a dot rather than in a folder.
pub fn first_script(
    alloc: Global,
    tree: &Tree,
    chain: &TypeList,
    parts: &Parts,
) -> Mem<Option<Path>>
    ensures some { IfOk result (λ o. IfSome o (λ path. IsFirstScript tree.now chain.now parts.now path)) }
    ensures none { IfOk result (λ o. IfNone o (HasNoCandidate tree.now chain.now parts.now)) }
    ensures value { IfOk result (λ o. o ≡ search_result tree.now chain.now parts.now) }
{
    // What holds of each tree lets a place be passed: each node's parent is there, and knows its kids.
    let _ = tree.len();
    let script_places = type_script_places(alloc, tree, chain)?;
    script_place_search(alloc, tree, script_places.as_slice(), parts)
}

/// The script that renders a resource with these properties. Each place of each type of its chain is looked up once, for the chain and
/// for the search.
pub fn script_of(alloc: Global, tree: &Tree, props: &PropList, parts: &Parts) -> Mem<Option<Path>>
    ensures some { IfOk result (λ o. IfSome o (λ path. IsFirstScript tree.now (chain_of tree.now props.now) parts.now path)) }
    ensures none { IfOk result (λ o. IfNone o (HasNoCandidate tree.now (chain_of tree.now props.now) parts.now)) }
    ensures value { IfOk result (λ o. o ≡ search_result tree.now (chain_of tree.now props.now) parts.now) }
{
    let _ = tree.len();
    let chain = chain_with_script_places(alloc, tree, props)?;
    script_place_search(alloc, tree, chain.script_places.as_slice(), parts)
}

/// The first script in the order of the namings and the script places.
pub(crate) fn script_place_search<S: Scripts>(
    alloc: Global,
    scripts: &S,
    script_places: &[ScriptPlace],
    parts: &Parts,
) -> Mem<Option<Path>>
    ensures { IfOk result (λ o. o ≡ script_place_search (S.tells scripts.now) script_places.now parts.now) }
{
    if script_places.is_empty() {
        return Ok(None);
    }
    let namings = namings(alloc, parts)?;
    let mut text = String::new(alloc);
    for naming in &namings {
        if let Some(path) = at_script_places(
            alloc,
            scripts,
            parts,
            script_places,
            *naming,
            &mut text,
        )? {
            return Ok(Some(path));
        }
    }
    Ok(None)
}

#[tactic(auto, unfolding(crate::specs::ScriptPlaceSearch::at_script_places))]
fn at_script_places<S: Scripts>(
    alloc: Global,
    scripts: &S,
    parts: &Parts,
    script_places: &[ScriptPlace],
    naming: Naming,
    text: &mut String,
) -> Mem<Option<Path>>
    ensures { IfOk result (λ o. o ≡ at_script_places (S.tells scripts.now) parts.now script_places.now naming) }
{
    for script_place in script_places {
        if let Some(path) = at_script_place(alloc, scripts, parts, naming, script_place, text)? {
            return Ok(Some(path));
        }
    }
    Ok(None)
}

// The script of this naming at a script place. Its name is spelled in the text.
#[tactic(auto, unfolding(crate::specs::ScriptPlaceSearch::at_script_place))]
fn at_script_place<S: Scripts>(
    alloc: Global,
    scripts: &S,
    parts: &Parts,
    naming: Naming,
    script_place: &ScriptPlace,
    text: &mut String,
) -> Mem<Option<Path>>
    ensures { IfOk result (λ o. o ≡ at_script_place (S.tells scripts.now) parts.now naming script_place.now) }
{
    spell(text, parts, script_place.label.text(), naming, ".")?;
    let found = script_below(alloc, scripts, &script_place.place, text.as_str())?;
    match naming {
        Naming::SelectorsAndExtension(_) if found.is_none() => {
            spell(text, parts, script_place.label.text(), naming, "/")?;
            script_below(alloc, scripts, &script_place.place, text.as_str())
        }
        _ => Ok(found),
    }
}
