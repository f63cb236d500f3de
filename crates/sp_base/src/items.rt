//! Lists that contracts see as lists.
ghost use Rattle.std.specs.Prelude.{◌≡◌, ◌==◌, [], ◌∷◌, ◌++◌, IfOk, OnOk, OnErr, option_copied, slice_get, length};

use crate::{Mem, Path, TextBuf};
use std::alloc::Global;
use std::marker::Model;

/// A list that grows at its end.
#[derive(Drop)]
pub struct Items<T> {
    items: Vec<T>,
}

pub type TextList = Items<TextBuf>;

pub type NameList = Items<TextBuf>;

pub type LongList = Items<i64>;

pub type TruthList = Items<bool>;

pub type PathList = Items<Path>;

/// The numbers of calls, counted from 1.
pub type CallList = Items<u64>;

impl<T> Model for Items<T> {
    ghost use Rattle.std.specs.Prelude.{List};
    ghost use Rattle.std.specs.Coded.{coded_list};

    ghost Value = { List T };

    ghost coded = { coded_list T.code };

    ghost view = { λ l. l.items.items };
}

impl<T> Items<T> {
    pub fn new(alloc: Global) -> Self
        ensures { result ≡ [] }
    {
        Items {
            items: Vec::new(alloc),
        }
    }

    pub fn len(&self) -> usize
        ensures { result ≡ length self.now }
    {
        self.items.len()
    }

    pub fn is_empty(&self) -> bool
        ensures { result ≡ (length self.now == 0) }
    {
        self.items.is_empty()
    }

    /// The item at a place, counted from 0.
    pub fn get(&self, place: usize) -> Option<&T>
        ensures { option_copied result ≡ slice_get self.now place }
    {
        self.items.get(place)
    }

    pub fn as_slice(&self) -> &[T]
        ensures { result.now ≡ self.now }
    {
        self.items.as_slice()
    }
}

impl<T: Drop> Items<T> {
    /// Adds an item at the end.
    pub fn push(&mut self, item: T) -> Mem<()>
        ensures ok { OnOk result (self.new ≡ self.old ++ item ∷ []) }
        ensures err { OnErr result (self.new ≡ self.old) }
    {
        self.items.push(item)?;
        Ok(())
    }
}

impl<T> From<Vec<T>> for Items<T> {
    ghost from_gives = { λ items l. l ≡ items.items };

    fn from(items: Vec<T>) -> Items<T> {
        Items { items }
    }
}

impl TextList {
    pub fn duplicate(&self, alloc: Global) -> Mem<TextList>
        ensures { IfOk result (λ l. l ≡ self.now) }
    {
        let mut copy = Items::new(alloc);
        for text in self.as_slice() {
            copy.push(text.duplicate(alloc)?)?;
        }
        Ok(copy)
    }
}

impl LongList {
    pub fn duplicate(&self, alloc: Global) -> Mem<LongList>
        ensures { IfOk result (λ l. l ≡ self.now) }
    {
        Ok(Items {
            items: Vec::from_slice(alloc, self.items.as_slice())?,
        })
    }
}

impl TruthList {
    pub fn duplicate(&self, alloc: Global) -> Mem<TruthList>
        ensures { IfOk result (λ l. l ≡ self.now) }
    {
        Ok(Items {
            items: Vec::from_slice(alloc, self.items.as_slice())?,
        })
    }
}
