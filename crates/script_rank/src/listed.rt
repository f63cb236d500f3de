// The paths of an index in their order: look-ups, and changes in room that is made before.
ghost use Rattle.std.specs.Prelude.{◌≡◌, ◌≤◌, ◌<◌, ◌+◌, ◌++◌, ◌&&◌, ◌||◌, not, OnOk, length, vec_capacity, vec_len};
ghost use Rattle.std.specs.List.Sorted.{IsSorted, IsStrictlySortedBy};
ghost use Rattle.sp_base.specs.Paths.{by_path};
ghost use Rattle.sp_base.specs.Texts.{Segments};
ghost use Rattle.resource_tree.specs.Content.{same_path};
ghost use Rattle.script_rank.specs.Index.{has_path};
ghost use Rattle.script_rank.specs.ScriptPlaceSearch.{has_under};

use crate::ScriptIndex;
use sp_base::{Mem, Path};

impl ScriptIndex {
    /// Whether a script is at a path.
    pub(crate) fn lists(&self, path: &Path) -> bool
        ensures { result ≡ has_path self.now.scripts path.now }
    {
        self.scripts.binary_search(path).is_ok()
    }

    /// Whether a script is at a path or below it. In their order the paths at and below one stand together.
    pub(crate) fn has_under(&self, path: &Path) -> bool
        ensures { result ≡ has_under self.now.scripts path.now }
    {
        match self.scripts.binary_search(path) {
            Ok(_) => true,
            Err(position) => match self.scripts.get(position) {
                Some(next) => next.is_under(path),
                None => false,
            },
        }
    }

    /// Makes room for n more.
    pub(crate) fn make_room(&mut self, n: usize) -> Mem<()>
        ensures scripts { self.new.scripts ≡ self.old.scripts }
        ensures ok { OnOk result (n ≤ self.new.room) }
    {
        self.scripts.reserve(n)?;
        Ok(())
    }

    /// Adds a path, with no memory.
    pub(crate) fn put_in_room(&mut self, path: Path)
        requires { 0 < self.old.room }
        ensures scripts { (q : Segments) → has_path self.new.scripts q ≡ (has_path self.old.scripts q || same_path q path) }
        ensures room { self.old.room ≤ self.new.room + 1 }
    {
        if let Err(position) = self.scripts.binary_search(&path) {
            drop(self.scripts.insert(position, path));
        }
    }

    /// Adds paths, with no memory, by sorting all once.
    pub(crate) fn put_at_once(&mut self, added: Vec<Path>)
        requires { length added.items ≤ self.old.room }
        ensures scripts { (q : Segments) → has_path self.new.scripts q ≡ (has_path self.old.scripts q || has_path added.items q) }
        ensures order { IsStrictlySortedBy by_path self.new.scripts }
    {
        push_all(&mut self.scripts, added);
        sort_once(&mut self.scripts);
    }

    /// Takes paths away, in one pass.
    pub(crate) fn forget_at_once(&mut self, gone: Vec<Path>)
        ensures scripts { (q : Segments) → has_path self.new.scripts q ≡ (has_path self.old.scripts q && not (has_path gone.items q)) }
        ensures room { self.old.room ≤ self.new.room }
    {
        let mut gone = gone;
        gone.sort_unstable();
        remove_all(&mut self.scripts, &gone);
    }

    /// Takes a path away, if it is there.
    pub(crate) fn forget(&mut self, path: &Path)
        ensures scripts { (q : Segments) → has_path self.new.scripts q ≡ (has_path self.old.scripts q && not (same_path q path.now)) }
        ensures room { self.old.room ≤ self.new.room }
    {
        remove_path(&mut self.scripts, path);
    }
}

// Adds paths at the end, in no order, for which there is room.
fn push_all(paths: &mut Vec<Path>, added: Vec<Path>)
    requires { vec_len paths.old + length added.items ≤ vec_capacity paths.old }
    ensures { (q : Segments) → has_path paths.new.items q ≡ (has_path paths.old.items q || has_path added.items q) }
{
    let mut left = added;
    while let Some(path) = left.pop() {
        drop(paths.push(path));
    }
}

/// Puts paths into their order, each once.
pub(crate) fn sort_once(paths: &mut Vec<Path>)
    ensures order { IsStrictlySortedBy by_path paths.new.items }
    ensures paths { (q : Segments) → has_path paths.new.items q ≡ has_path paths.old.items q }
{
    paths.sort_unstable();
    paths.dedup();
}

// Takes paths, which are given in their order, away from others.
fn remove_all(paths: &mut Vec<Path>, gone: &[Path])
    requires order { IsStrictlySortedBy by_path paths.old.items }
    requires gone { IsSorted by_path gone.now }
    ensures order { IsStrictlySortedBy by_path paths.new.items }
    ensures paths { (q : Segments) → has_path paths.new.items q ≡ (has_path paths.old.items q && not (has_path gone.now q)) }
    ensures room { vec_capacity paths.new ≡ vec_capacity paths.old }
    ensures fewer { vec_len paths.new ≤ vec_len paths.old }
{
    paths.retain(|path| lacks(gone, path));
}

// Whether a path is none of some that are given in their order.
fn lacks(paths: &[Path], path: &Path) -> bool
    ensures { IsSorted by_path paths.now → result ≡ not (has_path paths.now path.now) }
{
    paths.binary_search(path).is_err()
}

// Takes a path away from others in their order, as often as it is among them.
fn remove_path(paths: &mut Vec<Path>, path: &Path)
    requires { IsStrictlySortedBy by_path paths.old.items }
    ensures order { IsStrictlySortedBy by_path paths.new.items }
    ensures paths { (q : Segments) → has_path paths.new.items q ≡ (has_path paths.old.items q && not (same_path q path.now)) }
    ensures room { vec_capacity paths.new ≡ vec_capacity paths.old }
    ensures fewer { vec_len paths.new ≤ vec_len paths.old }
{
    while let Ok(position) = paths.binary_search(path) {
        drop(paths.remove(position));
    }
}
