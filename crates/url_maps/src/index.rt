// The index of a tree's aliases, vanity paths and patterns.
ghost use Rattle.std.specs.Prelude.{IfOk, OnOk};
ghost use Rattle.url_maps.specs.Claims.{AddsClaims, IsIndexOf, node_claims_alias, node_claims_vanity_path};

use crate::claimed::{aliases_of, vanity_paths_of};
use crate::claims::Claims;
use crate::patterns::{PatternList, patterns_of};
use crate::siblings::first_siblings;
use resource_tree::{Node, Patch, Tree};
use sp_base::{Mem, Path};
use std::alloc::Global;
use std::marker::Model;

/// The aliases and the vanity paths of a tree, found by their texts: of an alias the first of the siblings that have it,
/// of a vanity path the nodes that have it, and before the others the one that it names. And the patterns of the nodes directly
/// below `/etc/map/http`, as they were read.
#[derive(Drop)]
pub struct MapIndex {
    pub(crate) aliases: Claims,
    pub(crate) vanity_paths: Claims,
    pub(crate) patterns: PatternList,
}

impl Model for MapIndex {
    ghost use Rattle.url_maps.specs.Claims.{Index};

    ghost Value = { Index };

    ghost view = { λ i. record { aliases = i.aliases; vanity_paths = i.vanity_paths; patterns = i.patterns } };
}

impl MapIndex {
    /// The index of a tree, made by one walk over its nodes, and one over the kids of those of which two kids have one alias.
    pub fn of(alloc: Global, tree: &Tree) -> Mem<MapIndex>
        ensures { IfOk result (λ index. IsIndexOf tree.now index) }
    {
        let mut aliases = Claims::new(alloc, tree.seeds());
        let mut vanity_paths = Claims::new(alloc, tree.seeds());
        {
            // The rows are dropped before the first siblings are looked for, since that takes memory of its own.
            let all = tree.rows(alloc)?;
            let rows = all.as_slice();
            for row in rows {
                note_node(&mut aliases, &mut vanity_paths, alloc, row.0, row.1)?;
            }
        }
        let aliases = first_siblings(alloc, tree, aliases)?;
        let unchanged = Patch::new(alloc, tree.seeds());
        Ok(MapIndex {
            aliases,
            vanity_paths: vanity_paths.put_leaders_first(alloc, tree, &unchanged)?,
            patterns: patterns_of(alloc, tree, &unchanged)?,
        })
    }
}

// Adds the aliases and the vanity paths of the node at a path.
fn note_node(
    aliases: &mut Claims,
    vanity_paths: &mut Claims,
    alloc: Global,
    path: &Path,
    node: &Node,
) -> Mem<()>
    ensures aliases { OnOk result (AddsClaims path.now (node_claims_alias path.now node.now) aliases.old.rows aliases.new.rows) }
    ensures vanity_paths { OnOk result (AddsClaims path.now (node_claims_vanity_path node.now) vanity_paths.old.rows vanity_paths.new.rows) }
{
    let names = aliases_of(alloc, path, node)?;
    aliases.add_all(alloc, names.as_slice(), path)?;
    let texts = vanity_paths_of(alloc, node)?;
    vanity_paths.add_all(alloc, texts.as_slice(), path)?;
    Ok(())
}
