//! Notes of the stamps of folders.
ghost use Rattle.std.specs.Prelude.{◌≡◌, ◌≤◌, ◌<◌, ◌+◌, [], None, OnOk, OnErr, Some, cond, false, length};
ghost use Rattle.page_index.specs.Held.{HeldStamps, same_folder};
ghost use Rattle.page_index.specs.Limits.{most_notes, most_young};
ghost use Rattle.page_index.specs.Notes.{held_stamp};
ghost use Rattle.page_index.specs.Effects.{StampStaysOrFalls};
ghost use Rattle.sp_base.specs.Texts.{Segments};

use cover_rules::Stamp;
use sp_base::{Mem, Path};
use std::alloc::Global;
use std::collections::BTreeMap;
use std::marker::Model;
use std::mem::swap;

// The most notes of a generation.
const MOST_YOUNG: usize = 32_768;

/// The stamps of folders, or that they have none, in two generations: where the younger is full, the older one falls.
#[derive(Drop)]
pub(crate) struct Stamps {
    young: BTreeMap<Path, Option<Stamp>>,
    older: BTreeMap<Path, Option<Stamp>>,
}

impl Model for Stamps {
    ghost use Rattle.std.specs.Prelude.{◌≤◌, length};
    ghost use Rattle.page_index.specs.Held.{HeldStamps};
    ghost use Rattle.page_index.specs.Limits.{most_young};

    ghost Value = { HeldStamps };

    ghost view = { λ s. record { young = s.young.entries; older = s.older.entries } };

    ghost invariant = { λ s. (length s.young.entries ≤ most_young) × (length s.older.entries ≤ most_young) };
}

impl Stamps {
    pub(crate) fn new(alloc: Global) -> Stamps
        ensures young { result.young ≡ [] }
        ensures older { result.older ≡ [] }
    {
        Stamps {
            young: BTreeMap::new(alloc),
            older: BTreeMap::new(alloc),
        }
    }

    pub(crate) fn len(&self) -> usize
        ensures value { result ≡ length self.now.young + length self.now.older }
        ensures few { result ≤ most_notes }
    {
        self.young.len() + self.older.len()
    }

    pub(crate) fn get(&self, folder: &Path) -> Option<Option<Stamp>>
        ensures { result ≡ held_stamp self.now folder.now }
    {
        match self.young.get(folder) {
            Some(stamp) => Some(*stamp),
            None => self.older.get(folder).copied(),
        }
    }

    /// Notes a stamp.
    pub(crate) fn put(&mut self, folder: Path, stamp: Option<Stamp>) -> Mem<()>
        ensures here { OnOk result (held_stamp self.new folder ≡ Some stamp) }
        ensures err { OnErr result (held_stamp self.new folder ≡ None) }
        ensures others { (other : Segments) → same_folder folder other ≡ false → StampStaysOrFalls other self.old self.new }
    {
        self.forget(&folder);
        self.make_room();
        self.put_young(folder, stamp)
    }

    // Makes room in the younger generation: where it is full, the older one falls.
    fn make_room(&mut self)
        ensures room { length self.new.young < most_young }
        ensures kept { (folder : Segments) → StampStaysOrFalls folder self.old self.new }
    {
        if self.young.len() < MOST_YOUNG {
            return;
        }
        swap(&mut self.young, &mut self.older);
        self.young.clear();
    }

    fn put_young(&mut self, folder: Path, stamp: Option<Stamp>) -> Mem<()>
        requires { length self.old.young < most_young }
        ensures here { OnOk result (held_stamp self.new folder ≡ Some stamp) }
        ensures others { (other : Segments) → same_folder folder other ≡ false → held_stamp self.new other ≡ held_stamp self.old other }
        ensures err { OnErr result (self.new ≡ self.old) }
    {
        self.young.insert(folder, stamp)?;
        Ok(())
    }

    pub(crate) fn forget(&mut self, folder: &Path)
        ensures fewer { length self.new.young ≤ length self.old.young }
        ensures gone { (other : Segments) → held_stamp self.new other ≡ cond (same_folder folder.now other) None (held_stamp self.old other) }
    {
        drop(self.young.remove(folder));
        drop(self.older.remove(folder));
    }

    pub(crate) fn clear(&mut self)
        ensures young { self.new.young ≡ [] }
        ensures older { self.new.older ≡ [] }
    {
        self.young.clear();
        self.older.clear();
    }
}
