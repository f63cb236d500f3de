// The change of an index by a patch of the tree.
ghost use Rattle.std.specs.Prelude.{IfOk, OnOk};
ghost use Rattle.url_maps.specs.Claims.{IsIndexOf, claims_vanity_path};
ghost use Rattle.url_maps.specs.Changes.{AreChanged, HasRoom, IsChangeOf, LeavesOthers, patched_vanity_path, TakesChange};
ghost use Rattle.url_maps.specs.Noting.{NotesVanityPaths};

use crate::MapIndex;
use crate::claimed::vanity_texts;
use crate::claims_change::{ClaimsChange, PatchedTexts};
use crate::parents::left_by;
use crate::patterns::{PatternList, patterns_change, put_patterns};
use crate::siblings::siblings_change;
use resource_tree::{Patch, PatchNode, Tree};
use sp_base::{Mem, Path};
use std::alloc::Global;
use std::marker::Model;

/// What a patch changes in an index: the texts whose claimants change, and those after it; and all patterns after it, where it may
/// change any.
#[derive(Drop)]
pub struct IndexChange {
    aliases: ClaimsChange,
    vanity_paths: ClaimsChange,
    patterns: Option<PatternList>,
}

impl Model for IndexChange {
    ghost use Rattle.url_maps.specs.Changes.{Change};

    ghost Value = { Change };

    ghost view = { λ c. record { aliases = c.aliases; vanity_paths = c.vanity_paths; patterns = c.patterns } };
}

impl MapIndex {
    /// What a patch of the tree changes in the index, for which room is made here: all memory that the change takes. It walks over
    /// the patch, over the kids of the nodes whose kids it changes or the aliases of whose kids, and over the claimants of the
    /// vanity paths that the patch's nodes have before it or after it. Where the patch has something at `/etc/map/http` or directly
    /// below it reads the patterns of all nodes there.
    pub fn change_of(&mut self, alloc: Global, tree: &Tree, patch: &Patch) -> Mem<IndexChange>
        requires { IsIndexOf tree.now self.old }
        ensures change { IfOk result (IsChangeOf tree.now patch.now) }
        ensures room { IfOk result (HasRoom self.new) }
        ensures index { IsIndexOf tree.now self.new }
    {
        let change = change_by(alloc, self, tree, patch)?;
        self.aliases.make_room(change.aliases.len())?;
        self.vanity_paths.make_room(change.vanity_paths.len())?;
        Ok(change)
    }

    /// Changes the index, with no memory.
    pub fn take(&mut self, change: IndexChange)
        requires { HasRoom self.old change }
        ensures { TakesChange change self.old self.new }
    {
        let IndexChange {
            aliases,
            vanity_paths,
            patterns,
        } = change;
        self.aliases.change(aliases);
        self.vanity_paths.change(vanity_paths);
        put_patterns(&mut self.patterns, patterns);
    }
}

// The node at a path, and what a patch has there.
#[derive(Clone, Copy)]
struct PatchedRow<'a> {
    path: &'a Path,
    row: &'a PatchNode,
}

fn change_by(alloc: Global, index: &MapIndex, tree: &Tree, patch: &Patch) -> Mem<IndexChange>
    requires { IsIndexOf tree.now index.now }
    ensures { IfOk result (IsChangeOf tree.now patch.now) }
{
    Ok(IndexChange {
        aliases: siblings_change(alloc, tree, patch)?,
        vanity_paths: vanity_change(alloc, index, tree, patch)?.put_leaders_first(
            alloc, tree, patch,
        )?,
        patterns: patterns_change(alloc, tree, patch)?,
    })
}

// What a patch changes of the vanity paths.
fn vanity_change(alloc: Global, index: &MapIndex, tree: &Tree, patch: &Patch) -> Mem<ClaimsChange>
    requires { IsIndexOf tree.now index.now }
    ensures changed { IfOk result (AreChanged (claims_vanity_path tree.now) (patched_vanity_path tree.now patch.now)) }
    ensures others { IfOk result (LeavesOthers tree.now patch.now) }
{
    let mut change = ClaimsChange::new(alloc, tree.seeds());
    for place in 0..patch.len() {
        let Some((path, row)) = patch.at(place) else {
            continue;
        };
        note_row(
            &mut change,
            alloc,
            index,
            tree,
            patch,
            &PatchedRow { path, row },
        )?;
    }
    Ok(change)
}

// Notes what an entry changes.
fn note_row(
    change: &mut ClaimsChange,
    alloc: Global,
    index: &MapIndex,
    tree: &Tree,
    patch: &Patch,
    patched: &PatchedRow,
) -> Mem<()>
    ensures { OnOk result (NotesVanityPaths index.now tree.now patch.now patched.now.path.now patched.now.row.now change.old change.new) }
{
    let old = tree.node(patched.path);
    let new = left_by(patched.row);
    let before = vanity_texts(alloc, old)?;
    let after = vanity_texts(alloc, new)?;
    let texts = PatchedTexts {
        path: patched.path,
        before: &before,
        after: &after,
    };
    change.note_node(alloc, &index.vanity_paths, patch, &texts)?;
    Ok(())
}
