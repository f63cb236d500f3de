// The indexes of a publisher's tree: they are made when one is first asked for, and kept from then on.
ghost use Rattle.std.specs.Prelude.{◌≡◌, IfOk, IfErr, OnOk, OnErr, IsTrue, None, is_some};
ghost use Rattle.resource_tree.specs.Content.{IsGood};
ghost use Rattle.resource_tree.specs.Patches.{patching};
ghost use Rattle.type_chain.specs.Chain.{chain_of};
ghost use Rattle.script_rank.specs.Search.{search_result as first_script};
ghost use Rattle.publisher.specs.FirstScripts.{AreFirst};
ghost use Rattle.publisher.specs.Kept.{AreIndexesFor, AreIndexesOf, AreReadings};
ghost use Rattle.publisher.specs.Rendering.{mapping};

use crate::changes::put_over;
use crate::first_scripts::FirstScripts;
use crate::templates::Templates;
use resource_tree::{Patch, Tree};
use script_rank::{ScriptIndex, script_of};
use sp_base::{Ask, Mem, Path, PropList};
use std::alloc::Global;
use type_chain::chain;
use url_maps::{MapAnswer, MapIndex};
use url_split::Parts;

/// The indexes of a tree: that of its mappings, and that of its scripts.
#[derive(Drop)]
pub(crate) struct Indexes {
    pub(crate) mappings: MapIndex,
    pub(crate) scripts: ScriptIndex,
}

impl Indexes {
    fn of(alloc: Global, tree: &Tree) -> Mem<Indexes>
        ensures { IfOk result (λ indexes. AreIndexesOf tree.now indexes) }
    {
        Ok(Indexes {
            mappings: MapIndex::of(alloc, tree)?,
            scripts: ScriptIndex::of(alloc, tree)?,
        })
    }
}

/// What the text of a request's path is mapped to.
pub(crate) fn mapped(
    alloc: Global,
    tree: &Tree,
    indexes: &mut Option<Indexes>,
    ask: &Ask,
) -> Mem<MapAnswer>
    requires { AreIndexesFor tree.now indexes.old }
    ensures answer { IfOk result (λ a. a ≡ mapping tree.now ask.now) }
    ensures right { AreIndexesFor tree.now indexes.new }
    ensures made { OnOk result (IsTrue (is_some indexes.new)) }
    ensures kept { IsTrue (is_some indexes.old) → IsTrue (is_some indexes.new) }
{
    let made = indexes_of(alloc, tree, indexes.take())?;
    let path = ask.path.as_text();
    let answer = made
        .mappings
        .map_in(alloc, tree, ask.host.text(), ask.port, path);
    *indexes = Some(made);
    answer
}

/// The script that ranks first for a resource with these properties. The index of scripts is asked, where it is there.
pub(crate) fn script_by_index(
    alloc: Global,
    tree: &Tree,
    indexes: &Option<Indexes>,
    props: &PropList,
    parts: &Parts,
) -> Mem<Option<Path>>
    requires { AreIndexesFor tree.now indexes.now }
    ensures { IfOk result (λ o. o ≡ first_script tree.now (chain_of tree.now props.now) parts.now) }
{
    match indexes {
        Some(indexes) => {
            let types = chain(alloc, tree, props)?;
            indexes.scripts.first(alloc, &types, parts)
        }
        None => script_of(alloc, tree, props, parts),
    }
}

/// Puts a patch over a tree, and keeps what of the readings, the first scripts and the indexes is still right.
pub(crate) fn put_with_indexes(
    alloc: Global,
    tree: &mut Tree,
    templates: &mut Templates,
    firsts: &mut FirstScripts,
    indexes: &mut Option<Indexes>,
    patch: Patch,
) -> Mem<()>
    requires good { IsGood (patching tree.old patch) }
    requires indexes { AreIndexesFor tree.old indexes.old }
    requires readings { AreReadings tree.old templates.old }
    requires firsts { AreFirst tree.old firsts.old }
    ensures ok { OnOk result (tree.new ≡ patching tree.old patch) }
    ensures unchanged { OnErr result (tree.new ≡ tree.old) }
    ensures right { AreIndexesFor tree.new indexes.new }
    ensures readings { AreReadings tree.new templates.new }
    ensures firsts { AreFirst tree.new firsts.new }
    ensures made { OnOk result (IsTrue (is_some indexes.new)) }
    ensures kept { IsTrue (is_some indexes.old) → IsTrue (is_some indexes.new) }
{
    let mut changed = indexes_of(alloc, tree, indexes.take())?;
    let put = put_over(alloc, tree, templates, firsts, &mut changed, patch);
    *indexes = Some(changed);
    put
}

// The indexes of a tree: those that are there, or new ones.
fn indexes_of(alloc: Global, tree: &Tree, indexes: Option<Indexes>) -> Mem<Indexes>
    requires { AreIndexesFor tree.now indexes }
    ensures made { IfOk result (λ made. AreIndexesOf tree.now made) }
    ensures none { IfErr result (λ _. indexes ≡ None) }
{
    match indexes {
        Some(indexes) => Ok(indexes),
        None => Indexes::of(alloc, tree),
    }
}
