//! The index of the scripts of a tree, in which the script that ranks first is found without the tree.
ghost use Rattle.std.specs.Prelude.{◌≡◌, ◌++◌, IfNone, IfOk, IfSome, IsTrue, OnOk};
ghost use Rattle.sp_base.specs.Paths.{is_path};
ghost use Rattle.sp_base.specs.Texts.{Segments};
ghost use Rattle.resource_tree.specs.Content.{Content};
ghost use Rattle.script_rank.specs.Index.{IsScriptIndexOf, has_path};
ghost use Rattle.script_rank.specs.Noting.{AddsScript, is_script_text};
ghost use Rattle.script_rank.specs.Ranking.{HasNoCandidate, IsFirstScript, is_script};
ghost use Rattle.script_rank.specs.Search.{search_result};
ghost use Rattle.script_rank.specs.ScriptPlaceSearch.{AreKeptPlacesOf, has_under, kept_places_of, place_if};

use crate::listed::sort_once;
use crate::ranking::script_place_search;
use crate::texts::{has_text, is_text_path, push_script};
use resource_tree::{Node, Tree};
use sp_base::{Mem, Path, TextBuf};
use std::alloc::Global;
use std::marker::Model;
use type_chain::{ScriptPlace, ScriptPlaceList, TypeList, TypeName, places};
use url_split::Parts;

/// The scripts of a tree, by their paths. They are held in the order of the paths, so that a look-up takes a number of comparisons
/// that grows as the logarithm of how many there are.
#[derive(Drop)]
pub struct ScriptIndex {
    pub(crate) scripts: Vec<Path>,
}

impl Model for ScriptIndex {
    ghost use Rattle.std.specs.Prelude.{◌-◌, vec_capacity, vec_len};
    ghost use Rattle.std.specs.List.Sorted.{IsStrictlySortedBy};
    ghost use Rattle.sp_base.specs.Paths.{by_path};
    ghost use Rattle.script_rank.specs.Index.{ScriptPaths};

    ghost Value = { ScriptPaths };

    ghost view = { λ i. record { scripts = i.scripts.items; room = vec_capacity i.scripts - vec_len i.scripts } };

    ghost invariant = { λ i. IsStrictlySortedBy by_path i.scripts.items };
}

impl ScriptIndex {
    /// The index of a tree, made by one walk over its nodes.
    pub fn of(alloc: Global, tree: &Tree) -> Mem<ScriptIndex>
        ensures { IfOk result (λ index. IsScriptIndexOf tree.now index) }
    {
        let mut scripts = scripts_of(alloc, tree)?;
        sort_once(&mut scripts);
        Ok(ScriptIndex { scripts })
    }

    /// The script that renders a resource with this chain of types, in each tree of which this is the index: the same that
    /// [`first_script`](crate::first_script) finds there. A place of a type that has no script below it is looked up once.
    pub fn first(&self, alloc: Global, chain: &TypeList, parts: &Parts) -> Mem<Option<Path>>
        ensures some { (tree : Content) → IsScriptIndexOf tree self.now → IfOk result (λ o. IfSome o (λ path. IsFirstScript tree chain.now parts.now path)) }
        ensures none { (tree : Content) → IsScriptIndexOf tree self.now → IfOk result (λ o. IfNone o (HasNoCandidate tree chain.now parts.now)) }
        ensures value { (tree : Content) → IsScriptIndexOf tree self.now → IfOk result (λ o. o ≡ search_result tree chain.now parts.now) }
    {
        let script_places = self.script_places(alloc, chain)?;
        script_place_search(alloc, self, script_places.as_slice(), parts)
    }

    // The places of types at or below which there is a script, in the order of the types.
    fn script_places(&self, alloc: Global, types: &TypeList) -> Mem<ScriptPlaceList>
        ensures { IfOk result (λ list. AreKeptPlacesOf (has_under self.now.scripts) types.now list) }
    {
        let mut script_places = ScriptPlaceList::new(alloc);
        for name in types.as_slice() {
            self.add_script_places(alloc, name, &mut script_places)?;
        }
        Ok(script_places)
    }

    #[tactic(auto, unfolding(crate::specs::ScriptPlaceSearch::kept_places_of))]
    fn add_script_places(
        &self,
        alloc: Global,
        name: &TypeName,
        script_places: &mut ScriptPlaceList,
    ) -> Mem<()>
        ensures added { OnOk result (script_places.new ≡ script_places.old ++ kept_places_of (has_under self.now.scripts) name.now) }
        ensures valid { IsTrue (is_path name.now.segs) }
    {
        let label = name.label();
        let places = places(alloc, name)?;
        for place in places.as_slice() {
            self.add_script_place(alloc, label, place, script_places)?;
        }
        Ok(())
    }

    fn add_script_place(
        &self,
        alloc: Global,
        label: &str,
        place: &Path,
        script_places: &mut ScriptPlaceList,
    ) -> Mem<()>
        ensures { OnOk result (script_places.new ≡ script_places.old ++ place_if (has_under self.now.scripts) label.now place.now) }
    {
        if self.has_under(place) {
            script_places.push(ScriptPlace {
                label: TextBuf::of(alloc, label)?,
                place: place.duplicate(alloc)?,
            })?;
        }
        Ok(())
    }
}

// The paths of the scripts of a tree, in no order.
fn scripts_of(alloc: Global, tree: &Tree) -> Mem<Vec<Path>>
    ensures { IfOk result (λ scripts. (path : Segments) → has_path scripts.items path ≡ is_script tree.now path) }
{
    let mut scripts = Vec::new(alloc);
    let all = tree.rows(alloc)?;
    let rows = all.as_slice();
    for row in rows {
        push_row(&mut scripts, alloc, row.0, row.1)?;
    }
    Ok(scripts)
}

// Adds the script whose text the node at a path holds, if it holds one.
fn push_row(scripts: &mut Vec<Path>, alloc: Global, path: &Path, node: &Node) -> Mem<()>
    ensures { OnOk result (AddsScript path.now (is_script_text path.now node.now) scripts.old.items scripts.new.items) }
{
    if !is_text_path(path) {
        return Ok(());
    }
    push_script(scripts, alloc, path, has_text(node))
}
