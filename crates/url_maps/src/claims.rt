// The table of the nodes that claim a text, by the text.
ghost use Rattle.std.specs.Prelude.{◌≡◌, ◌≤◌, ◌<◌, ◌+◌, [], ℕ, List, IfOk, OnOk, if◌then◌else◌, length, string_bytes, true};
ghost use Rattle.std.specs.List.{list_any};
ghost use Rattle.std.specs.Str.{bytes_eq};
ghost use Rattle.resource_tree.specs.Content.{same_path};
ghost use Rattle.resource_tree.specs.Patches.{patching_at};
ghost use Rattle.url_maps.specs.Claims.{AddsClaims, claimants, AddsClaimant};
ghost use Rattle.url_maps.specs.Changes.{claimants_over};
ghost use Rattle.url_maps.specs.Noting.{PutsLeaderFirst};
ghost use Rattle.url_maps.specs.Siblings.{HasParent, IsWithin};

use crate::claims_change::ClaimsChange;
use indexmap::IndexMap;
use resource_tree::{Patch, Tree};
use sp_base::{Mem, Path, PathList, TextBuf};
use std::alloc::Global;
use std::hash::RandomState;
use std::marker::Model;

/// The paths of the nodes that claim a text. Contracts see the rows in no order that is promised, and how many more fit.
#[derive(Drop)]
pub(crate) struct Claims {
    table: IndexMap<String, PathList, RandomState>,
    /// No text of the table has more bytes, so longer ones needn't be hashed.
    longest: usize,
}

impl Model for Claims {
    ghost use Rattle.std.specs.Prelude.{map, string_bytes};
    ghost use Rattle.std.specs.HashMap.{spare};
    ghost use Rattle.url_maps.specs.Claims.{ClaimsAreWithin, Table};

    ghost Value = { Table };

    ghost view = { λ c. record { rows = map (λ e. (string_bytes e.0, e.1)) c.table.entries; room = spare c.table } };

    ghost invariant = { λ c. ClaimsAreWithin c.longest (map (λ e. (string_bytes e.0, e.1)) c.table.entries) };
}

impl Claims {
    pub(crate) fn new(alloc: Global, seeds: RandomState) -> Claims
        ensures { result.rows ≡ [] }
    {
        Claims {
            table: IndexMap::with_hasher(alloc, seeds),
            longest: 0,
        }
    }

    pub(crate) fn get(&self, text: &str) -> &[Path]
        ensures { result.now ≡ claimants self.now.rows text.now }
    {
        if text.len() > self.longest {
            return &[];
        }
        match self.table.get(text) {
            Some(paths) => paths.as_slice(),
            None => &[],
        }
    }

    pub(crate) fn add(&mut self, alloc: Global, text: &str, path: Path) -> Mem<()>
        ensures { OnOk result (AddsClaimant text.now path self.old.rows self.new.rows) }
    {
        let mut paths = self.take(alloc, text);
        paths.push(path)?;
        self.set(alloc, text, paths)?;
        Ok(())
    }

    // Takes the claimants of a text away.
    fn take(&mut self, alloc: Global, text: &str) -> PathList
        ensures value { result ≡ claimants self.old.rows text.now }
        ensures rest { (t : List ℕ) → claimants self.new.rows t ≡ (if bytes_eq text.now t then [] else claimants self.old.rows t) }
    {
        match self.table.swap_remove(text) {
            Some(paths) => paths,
            None => PathList::new(alloc),
        }
    }

    fn set(&mut self, alloc: Global, text: &str, paths: PathList) -> Mem<()>
        ensures { OnOk result ((t : List ℕ) → claimants self.new.rows t ≡ (if bytes_eq text.now t then paths else claimants self.old.rows t)) }
    {
        let key = String::from_str(alloc, text)?;
        self.table.insert(key, paths)?;
        self.longest = self.longest.max(text.len());
        Ok(())
    }

    // Adds a path to the claimants of each of some texts.
    pub(crate) fn add_all(&mut self, alloc: Global, texts: &[TextBuf], path: &Path) -> Mem<()>
        ensures { OnOk result (AddsClaims path.now (λ t. list_any (bytes_eq t) texts.now) self.old.rows self.new.rows) }
    {
        for text in texts {
            self.add_unless_last(alloc, text.text(), path)?;
        }
        Ok(())
    }

    // Adds a path to the claimants of a text, unless it is the last of them: a node may give one text many times.
    fn add_unless_last(&mut self, alloc: Global, text: &str, path: &Path) -> Mem<()>
        ensures { OnOk result (AddsClaims path.now (λ t. bytes_eq t text.now) self.old.rows self.new.rows) }
    {
        if is_last(self.get(text), path) {
            return Ok(());
        }
        self.add(alloc, text, path.duplicate(alloc)?)
    }

    // The parents of the nodes of which several claim one text.
    pub(crate) fn shared_parents(&self, alloc: Global) -> Mem<PathList>
        ensures { IfOk result (λ parents. (t : List ℕ) → HasParent parents (claimants self.now.rows t)) }
    {
        let mut parents = PathList::new(alloc);
        for paths in self.table.values() {
            push_shared(&mut parents, alloc, paths.as_slice())?;
        }
        Ok(parents)
    }

    // Puts the path that leads before the others of its text, in each, in a tree with a patch over it.
    pub(crate) fn put_leaders_first(self, alloc: Global, tree: &Tree, patch: &Patch) -> Mem<Claims>
        ensures { IfOk result (λ claims. (t : List ℕ) → PutsLeaderFirst (patching_at tree.now patch.now) (claimants self.rows t) (claimants claims.rows t)) }
    {
        let rows = ClaimsChange { rows: self.table };
        let led = rows.put_leaders_first(alloc, tree, patch)?;
        Ok(Claims {
            table: led.rows,
            longest: self.longest,
        })
    }

    // Makes room for n more texts.
    pub(crate) fn make_room(&mut self, n: usize) -> Mem<()>
        ensures rows { self.new.rows ≡ self.old.rows }
        ensures ok { OnOk result (n ≤ self.new.room) }
        ensures kept { self.old.room ≤ self.new.room }
    {
        self.table.reserve(n)?;
        Ok(())
    }

    // Puts a change over the claimants, with no memory.
    pub(crate) fn change(&mut self, change: ClaimsChange)
        requires { length change ≤ self.old.room }
        ensures { (t : List ℕ) → claimants self.new.rows t ≡ claimants_over change self.old.rows t }
    {
        let mut rows = change.rows;
        while let Some((text, paths)) = rows.pop() {
            self.put_in_room(text, paths);
        }
    }

    // Sets the claimants of a text, with no memory. A text without any has no row.
    fn put_in_room(&mut self, text: String, paths: PathList)
        requires { 0 < self.old.room }
        ensures rows { (t : List ℕ) → claimants self.new.rows t ≡ (if bytes_eq (string_bytes text) t then paths else claimants self.old.rows t) }
        ensures room { self.old.room ≤ self.new.room + 1 }
    {
        if paths.is_empty() {
            drop(self.table.swap_remove(text.as_str()));
        } else {
            self.longest = self.longest.max(text.len());
            drop(self.table.insert(text, paths));
        }
    }
}

// Whether a path is the last of some.
fn is_last(paths: &[Path], path: &Path) -> bool
    ensures { result ≡ true → list_any (same_path path.now) paths.now ≡ true }
{
    match paths.last() {
        Some(last) => path == last,
        None => false,
    }
}

// Adds the parent of the first of some paths, where they are more than one.
fn push_shared(parents: &mut PathList, alloc: Global, paths: &[Path]) -> Mem<()>
    ensures shared { OnOk result (HasParent parents.new paths.now) }
    ensures within { OnOk result (IsWithin parents.old parents.new) }
{
    if paths.len() < 2 {
        return Ok(());
    }
    parents.push(paths[0].parent(alloc)?)?;
    Ok(())
}
