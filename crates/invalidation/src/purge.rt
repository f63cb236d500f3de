//! A flush under way, carried out in slices.
ghost use Rattle.std.specs.Prelude.{◌≡◌, None, OnOk, Some};
ghost use Rattle.docroot_format.specs.Faults.{HasFileCause};
ghost use Rattle.docroot_changes.specs.Changes.{Told};
ghost use Rattle.docroot_changes.specs.DocrootCalls.{MakesDocrootCalls};
ghost use Rattle.invalidation.specs.Slices.{HasSliceCause, IsSamePurge, IsSlice, inv_of, level_of, purge_place, place_or_start, purge_stamp};
ghost use Rattle.invalidation.specs.Walks.{IsBegun, purge_step_of, BeginsSlice};

use crate::opening::open;
use crate::place::WalkPlace;
use crate::prefixes::{deleted_prefixes, prefixes_are_apart};
use crate::walk::walk;
use cover_rules::{Invalidation, Stamp, a_page_has_one_key};
use docroot_changes::docroot_calls_add_up;
use docroot_format::{
    FileFault, deleted_pages_are_known_by_names, names_are_apart, names_tell_their_files,
};
use sp_base::a_path_has_bytes;
use sp_outside::Disk;
use std::alloc::Global;

/// A flush under way: how deep .stat files lie, what is invalidated, the stamp that folders get, and how far it is.
#[derive(Drop)]
pub struct Purge {
    level: usize,
    inv: Invalidation,
    stamp: Stamp,
    place: Option<WalkPlace>,
}

/// How a slice ended.
#[derive(Clone, Copy, PartialEq, Eq, Debug, Drop)]
pub enum PurgeStep {
    /// It looked at 64 names, and there may be more.
    More,
    /// Each folder is touched, and each page is gone.
    Done,
    DiskFailed,
    NoMemory,
}

impl Purge {
    /// A flush that has looked at nothing yet.
    pub fn begin(level: usize, inv: Invalidation, stamp: Stamp) -> Purge
        ensures level { level_of result ≡ level }
        ensures inv { inv_of result ≡ inv }
        ensures stamp { purge_stamp result ≡ stamp }
        ensures place { purge_place result ≡ None }
    {
        Purge {
            level,
            inv,
            stamp,
            place: None,
        }
    }

    /// What is invalidated.
    pub fn invalidation(&self) -> &Invalidation
        ensures { result.now ≡ inv_of self.now }
    {
        &self.inv
    }

    /// Looks at the next 64 names of files, or at all where fewer are left, and takes those of pages away. The first slice touches the
    /// folders before that, and takes the page at the handle away.
    pub fn slice<D: Disk>(&mut self, alloc: Global, disk: &mut D) -> PurgeStep
        ensures same { IsSamePurge self.old self.new }
        ensures slice { Told (IsSlice self.old self.new result) (D.files disk.old) (D.files disk.new) }
        ensures cause { HasSliceCause (D.faults disk.old) (D.faults disk.new) result }
        ensures calls { MakesDocrootCalls (D.calls disk.old) (D.calls disk.new) }
    {
        match self.go_on(alloc, disk) {
            Ok(true) => PurgeStep::More,
            Ok(false) => PurgeStep::Done,
            Err(FileFault::Disk) => PurgeStep::DiskFailed,
            Err(FileFault::NoMemory) => PurgeStep::NoMemory,
        }
    }

    // The same: `true` where there may be more names.
    fn go_on<D: Disk>(&mut self, alloc: Global, disk: &mut D) -> Result<bool, FileFault>
        ensures same { IsSamePurge self.old self.new }
        ensures slice { Told (IsSlice self.old self.new (purge_step_of result)) (D.files disk.old) (D.files disk.new) }
        ensures cause { HasFileCause (D.faults disk.old) (D.faults disk.new) result }
        ensures calls { MakesDocrootCalls (D.calls disk.old) (D.calls disk.new) }
    {
        docroot_calls_add_up();
        a_page_has_one_key();
        prefixes_are_apart();
        names_are_apart();
        names_tell_their_files();
        deleted_pages_are_known_by_names();
        a_path_has_bytes(&self.inv.handle);
        // The laws speak of paths, and that the handle is one is a clause of its depth.
        let _depth = self.inv.handle.depth();
        let prefixes = deleted_prefixes(alloc, &self.inv)?;
        self.begin_walk(alloc, disk)?;
        let Some(place) = &mut self.place else {
            unreachable!()
        };
        walk(alloc, disk, &prefixes, place)
    }

    // Opens the flush, where no slice has yet.
    fn begin_walk<D: Disk>(&mut self, alloc: Global, disk: &mut D) -> Result<(), FileFault>
        ensures same { IsSamePurge self.old self.new }
        ensures changes { Told (BeginsSlice self.old) (D.files disk.old) (D.files disk.new) }
        ensures begun { OnOk result (Told (IsBegun self.old.level self.old.inv self.old.stamp self.old.place) (D.files disk.old) (D.files disk.new)) }
        ensures place { OnOk result (self.new.place ≡ Some (place_or_start self.old.place)) }
        ensures cause { HasFileCause (D.faults disk.old) (D.faults disk.new) result }
        ensures calls { MakesDocrootCalls (D.calls disk.old) (D.calls disk.new) }
    {
        docroot_calls_add_up();
        if self.place.is_some() {
            return Ok(());
        }
        let start = WalkPlace::start(alloc)?;
        open(alloc, disk, self.level, &self.inv, self.stamp)?;
        self.place = Some(start);
        Ok(())
    }
}
