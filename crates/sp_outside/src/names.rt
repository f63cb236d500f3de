//! Sets of names in their order, with what is kept under each.
ghost use Rattle.std.specs.Prelude.{◌≡◌, IfOk, IsTrue, OnErr, OnOk, option_copied, take};
ghost use Rattle.std.specs.FinMap as map;
ghost use Rattle.std.specs.Ordering.{is_lt};
ghost use Rattle.sp_base.specs.Names.{by_name};
ghost use Rattle.sp_outside.specs.Files.{IsListing, IsName, names_from};
ghost use Rattle.sp_outside.specs.NameEntries.{IsFirstPlace};

use sp_base::{Mem, NameList, TextBuf};
use std::alloc::Global;
use std::collections::BTreeMap;
use std::marker::Model;
use std::ops::Bound;

/// Names of files in the order of their bytes, with what is kept under each.
#[derive(Drop)]
pub(crate) struct Names<T> {
    alloc: Global,
    held: BTreeMap<String, T>,
}

impl<T> Model for Names<T> {
    ghost use Rattle.std.specs.Coded.{coded_ℕ, coded_list};
    ghost use Rattle.std.specs.FinMap.{FinMap, code};
    ghost use Rattle.sp_base.specs.Names.{by_name};
    ghost use Rattle.sp_outside.specs.NameEntries.{kept_by_name, HasNames};

    ghost Value = { FinMap by_name T };

    ghost coded = { code (coded_list coded_ℕ) T.code };

    ghost view = { λ n. kept_by_name n.held.entries };

    ghost invariant = { λ n. HasNames n.held.entries };
}

fn is_before(name: &str, other: &str) -> bool
    ensures { result ≡ is_lt (by_name name.now other.now) }
{
    name < other
}

// Where the names begin that are after a name and may begin with a prefix.
fn first_place(alloc: Global, prefix: &str, after: &str) -> Mem<Bound<String>>
    ensures { IfOk result (IsFirstPlace prefix.now after.now) }
{
    if is_before(after, prefix) {
        Ok(Bound::Included(String::from_str(alloc, prefix)?))
    } else {
        Ok(Bound::Excluded(String::from_str(alloc, after)?))
    }
}

impl<T> Names<T> {
    pub(crate) fn new(alloc: Global) -> Names<T>
        ensures { result ≡ map.empty }
    {
        Names {
            alloc,
            held: BTreeMap::new(alloc),
        }
    }

    /// What is kept under a name.
    pub(crate) fn get(&self, name: &str) -> Option<&T>
        ensures { option_copied result ≡ map.get self.now name.now }
    {
        self.held.get(name)
    }

    pub(crate) fn has(&self, name: &str) -> bool
        ensures value { result ≡ map.contains_key self.now name.now }
        ensures size { IsTrue result → IsName name.now }
    {
        self.held.contains_key(name)
    }

    /// All names, in their order.
    pub(crate) fn all(&self, alloc: Global) -> Mem<NameList>
        ensures { IfOk result (λ names. names ≡ map.keys self.now) }
    {
        let mut names = NameList::new(alloc);
        for (name, _) in self.held.iter() {
            names.push(TextBuf::of(alloc, name.as_str())?)?;
        }
        Ok(names)
    }

    /// The first names, at most `most`, that begin with a prefix and are after a name.
    pub(crate) fn list(
        &self,
        alloc: Global,
        prefix: &str,
        after: &str,
        most: usize,
    ) -> Mem<NameList>
        ensures names { IfOk result (IsListing prefix.now after.now most) }
        ensures value { IfOk result (λ names. names ≡ take most (names_from (map.keys self.now) prefix.now after.now)) }
    {
        let mut names = NameList::new(alloc);
        let start = first_place(alloc, prefix, after)?;
        for (name, _) in self.held.range((start, Bound::Unbounded)) {
            if names.len() >= most || !name.starts_with(prefix) {
                break;
            }
            names.push(TextBuf::of(alloc, name.as_str())?)?;
        }
        Ok(names)
    }
}

impl<T: Drop> Names<T> {
    /// Adds a name, or keeps something else under one that is among them.
    pub(crate) fn insert(&mut self, name: &str, value: T) -> Mem<()>
        requires { IsName name.now }
        ensures ok { OnOk result (self.new ≡ map.insert self.old name.now value) }
        ensures err { OnErr result (self.new ≡ self.old) }
    {
        let name = String::from_str(self.alloc, name)?;
        self.held.insert(name, value)?;
        Ok(())
    }

    pub(crate) fn remove(&mut self, name: &str)
        ensures { self.new ≡ map.remove self.old name.now }
    {
        let _ = self.held.remove(name);
    }
}
