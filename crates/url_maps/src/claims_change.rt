// The texts whose claimants a patch changes.
ghost use Rattle.std.specs.Prelude.{◌≡◌, ◌++◌, ◌||◌, [], ℕ, List, IfOk, OnOk, None, Some, cond, length, option_copied, option_to_list, string_bytes};
ghost use Rattle.std.specs.List.{list_any};
ghost use Rattle.std.specs.Map.{lookup};
ghost use Rattle.std.specs.Str.{bytes_eq};
ghost use Rattle.resource_tree.specs.Patches.{patching_at};
ghost use Rattle.url_maps.specs.Claims.{claimants};
ghost use Rattle.url_maps.specs.Noting.{LeadsRows, Notes, NotesEntry, has_row, is_at_some, untouched_paths, claimants_so_far, NotesRow, PutsRow, is_one_of};
ghost use Rattle.url_maps.specs.Siblings.{PutsRows, or_else};

use crate::claims::Claims;
use crate::leaders::put_leader_first;
use indexmap::IndexMap;
use resource_tree::{Patch, Tree};
use sp_base::{Mem, Path, PathList, TextBuf, TextList};
use std::alloc::Global;
use std::hash::RandomState;
use std::marker::Model;

/// Texts, each with all who claim it after the change.
#[derive(Drop)]
pub(crate) struct ClaimsChange {
    pub(crate) rows: IndexMap<String, PathList, RandomState>,
}

impl Model for ClaimsChange {
    ghost use Rattle.std.specs.Prelude.{map, string_bytes};
    ghost use Rattle.url_maps.specs.Claims.{ClaimRows};

    ghost Value = { ClaimRows };

    ghost view = { λ c. map (λ e. (string_bytes e.0, e.1)) c.rows.entries };
}

/// The texts that the node at a path claims before a patch, and those that it claims after it.
#[derive(Clone, Copy)]
pub(crate) struct PatchedTexts<'a> {
    pub(crate) path: &'a Path,
    pub(crate) before: &'a TextList,
    pub(crate) after: &'a TextList,
}

impl ClaimsChange {
    pub(crate) fn new(alloc: Global, seeds: RandomState) -> ClaimsChange
        ensures { result ≡ [] }
    {
        ClaimsChange {
            rows: IndexMap::with_hasher(alloc, seeds),
        }
    }

    pub(crate) fn len(&self) -> usize
        ensures { result ≡ length self.now }
    {
        self.rows.len()
    }

    // Notes the texts that the node at a path claims before the patch, and those that it claims after it.
    pub(crate) fn note_node(
        &mut self,
        alloc: Global,
        claims: &Claims,
        patch: &Patch,
        row: &PatchedTexts,
    ) -> Mem<()>
        ensures { OnOk result (NotesEntry claims.now.rows patch.now row.now.path.now (is_one_of row.now.before.now) (is_one_of row.now.after.now) self.old self.new) }
    {
        self.note_all(alloc, claims, patch, row.before.as_slice(), None)?;
        let path = Some(row.path);
        self.note_all(alloc, claims, patch, row.after.as_slice(), path)?;
        Ok(())
    }

    // Notes each of some texts, with a path that claims it after the patch, or none.
    fn note_all(
        &mut self,
        alloc: Global,
        claims: &Claims,
        patch: &Patch,
        texts: &[TextBuf],
        path: Option<&Path>,
    ) -> Mem<()>
        ensures { OnOk result (Notes claims.now.rows patch.now (is_at_some (option_copied path.entry)) (λ t. list_any (bytes_eq t) texts.now) self.old self.new) }
    {
        for text in texts {
            self.note(alloc, claims, patch, text.text(), path)?;
        }
        Ok(())
    }

    fn note(
        &mut self,
        alloc: Global,
        claims: &Claims,
        patch: &Patch,
        text: &str,
        path: Option<&Path>,
    ) -> Mem<()>
        ensures { OnOk result (NotesRow claims.now.rows patch.now text.now (option_copied path.entry) self.old self.new) }
    {
        let mut paths = self.take_noted(alloc, claims, patch, text)?;
        push_some(&mut paths, alloc, path)?;
        self.set(alloc, text, paths)?;
        Ok(())
    }

    // Takes the row of a text away, and answers its claimants: those that the patch leaves, where it had no row.
    fn take_noted(
        &mut self,
        alloc: Global,
        claims: &Claims,
        patch: &Patch,
        text: &str,
    ) -> Mem<PathList>
        ensures value { IfOk result (λ paths. paths ≡ claimants_so_far claims.now.rows patch.now self.old text.now) }
        ensures rest { OnOk result ((t : List ℕ) → lookup (bytes_eq t) self.new ≡ cond (bytes_eq text.now t) None (lookup (bytes_eq t) self.old)) }
    {
        match self.take(text) {
            Some(paths) => Ok(paths),
            None => kept(alloc, claims.get(text), patch),
        }
    }

    // Puts the path that leads before the others of its row, in each, in a tree with a patch over it.
    pub(crate) fn put_leaders_first(
        self,
        alloc: Global,
        tree: &Tree,
        patch: &Patch,
    ) -> Mem<ClaimsChange>
        ensures { IfOk result (LeadsRows (patching_at tree.now patch.now) self) }
    {
        let mut rows = self.rows;
        let mut change = ClaimsChange::new(alloc, tree.seeds());
        while let Some((text, paths)) = rows.pop() {
            change.put_row(text, put_leader_first(alloc, tree, patch, paths)?)?;
        }
        Ok(change)
    }

    fn put_row(&mut self, text: String, paths: PathList) -> Mem<()>
        ensures { OnOk result ((t : List ℕ) → lookup (bytes_eq t) self.new ≡ cond (bytes_eq (string_bytes text) t) (Some paths) (lookup (bytes_eq t) self.old)) }
    {
        self.rows.insert(text, paths)?;
        Ok(())
    }

    // Gives each of some texts a row, with a path where it has none yet.
    pub(crate) fn put_all(
        &mut self,
        alloc: Global,
        texts: &[TextBuf],
        path: Option<&Path>,
    ) -> Mem<()>
        ensures { OnOk result (PutsRows (option_copied path.entry) (λ t. list_any (bytes_eq t) texts.now) self.old self.new) }
    {
        for text in texts {
            self.put(alloc, text.text(), path)?;
        }
        Ok(())
    }

    fn put(&mut self, alloc: Global, text: &str, path: Option<&Path>) -> Mem<()>
        ensures { OnOk result (PutsRow text.now (or_else (claimants self.old text.now) (option_to_list (option_copied path.entry))) self.old self.new) }
    {
        let mut paths = self.take_paths(alloc, text);
        push_first(&mut paths, alloc, path)?;
        self.set(alloc, text, paths)?;
        Ok(())
    }

    // Takes the row of a text away, and answers its paths: none, where it had no row.
    fn take_paths(&mut self, alloc: Global, text: &str) -> PathList
        ensures value { result ≡ claimants self.old text.now }
        ensures rest { (t : List ℕ) → lookup (bytes_eq t) self.new ≡ cond (bytes_eq text.now t) None (lookup (bytes_eq t) self.old) }
    {
        match self.take(text) {
            Some(paths) => paths,
            None => PathList::new(alloc),
        }
    }

    // Gives a text a row without paths, and answers whether it had one.
    pub(crate) fn put_empty_row(&mut self, alloc: Global, text: &str) -> Mem<bool>
        ensures value { IfOk result (λ had. had ≡ has_row self.old text.now) }
        ensures rest { OnOk result ((t : List ℕ) → has_row self.new t ≡ (has_row self.old t || bytes_eq text.now t)) }
    {
        let had = self.take(text).is_some();
        self.set(alloc, text, PathList::new(alloc))?;
        Ok(had)
    }

    // Takes the row of a text away.
    fn take(&mut self, text: &str) -> Option<PathList>
        ensures value { result ≡ lookup (bytes_eq text.now) self.old }
        ensures rest { (t : List ℕ) → lookup (bytes_eq t) self.new ≡ cond (bytes_eq text.now t) None (lookup (bytes_eq t) self.old) }
    {
        self.rows.swap_remove(text)
    }

    fn set(&mut self, alloc: Global, text: &str, paths: PathList) -> Mem<()>
        ensures { OnOk result ((t : List ℕ) → lookup (bytes_eq t) self.new ≡ cond (bytes_eq text.now t) (Some paths) (lookup (bytes_eq t) self.old)) }
    {
        let key = String::from_str(alloc, text)?;
        self.rows.insert(key, paths)?;
        Ok(())
    }
}

fn push_some(paths: &mut PathList, alloc: Global, path: Option<&Path>) -> Mem<()>
    ensures { OnOk result (paths.new ≡ paths.old ++ option_to_list (option_copied path.entry)) }
{
    if let Some(path) = path {
        paths.push(path.duplicate(alloc)?)?;
    }
    Ok(())
}

// Adds a path to no others.
fn push_first(paths: &mut PathList, alloc: Global, path: Option<&Path>) -> Mem<()>
    ensures { OnOk result (paths.new ≡ or_else paths.old (option_to_list (option_copied path.entry))) }
{
    if !paths.is_empty() {
        return Ok(());
    }
    push_some(paths, alloc, path)?;
    Ok(())
}

// Those of some paths at which a patch has nothing.
fn kept(alloc: Global, paths: &[Path], patch: &Patch) -> Mem<PathList>
    ensures { IfOk result (λ list. list ≡ untouched_paths patch.now paths.now) }
{
    let mut list = PathList::new(alloc);
    for path in paths {
        if patch.get(path).is_none() {
            list.push(path.duplicate(alloc)?)?;
        }
    }
    Ok(list)
}
