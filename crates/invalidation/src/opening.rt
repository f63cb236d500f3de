//! The first part of a flush: its folders are touched, and the page at its handle goes.
ghost use Rattle.std.specs.Prelude.{◌<◌, ◌+◌, ◌^◌, ◌∷◌, [], Contains, List, OnOk, length};
ghost use Rattle.sp_base.specs.Texts.{Segments};
ghost use Rattle.cover_rules.specs.Coverage.{touched_of};
ghost use Rattle.docroot_format.specs.Faults.{HasFileCause};
ghost use Rattle.docroot_changes.specs.Changes.{IsStampFolder, Told};
ghost use Rattle.docroot_changes.specs.DocrootCalls.{MakesDocrootCalls};
ghost use Rattle.invalidation.specs.Slices.{IsHandlePage};
ghost use Rattle.invalidation.specs.Walks.{AreTouched, IsHandleGone, Opened, SliceChange, TakesFiles, Touches};

use cache_files::drop_page;
use cover_rules::{Invalidation, Stamp, a_page_has_one_key, page_key, touched};
use docroot_changes::{
    docroot_calls_add_up, pages_take_docroot_calls, stamps_take_docroot_calls, what_a_touch_sets,
};
use docroot_format::{
    FileFault, folders_are_mangled, folders_of_stamps_are_paths, names_are_apart,
};
use sp_base::{Path, a_path_has_bytes};
use sp_outside::Disk;
use stat_files::touch;
use std::alloc::Global;

/// Touches the folders of a flush, and then takes the page at its handle away.
pub(crate) fn open<D: Disk>(
    alloc: Global,
    disk: &mut D,
    level: usize,
    inv: &Invalidation,
    stamp: Stamp,
) -> Result<(), FileFault>
    ensures changes { Told (SliceChange (IsHandlePage inv.now) (touched_of level inv.now) (level + 1) 2 stamp) (D.files disk.old) (D.files disk.new) }
    ensures opened { OnOk result (Told (Opened level inv.now stamp) (D.files disk.old) (D.files disk.new)) }
    ensures cause { HasFileCause (D.faults disk.old) (D.faults disk.new) result }
    ensures calls { MakesDocrootCalls (D.calls disk.old) (D.calls disk.new) }
{
    docroot_calls_add_up();
    touch_folders(alloc, disk, level, inv, stamp)?;
    drop_at_handle(alloc, disk, inv)
}

fn touch_folders<D: Disk>(
    alloc: Global,
    disk: &mut D,
    level: usize,
    inv: &Invalidation,
    stamp: Stamp,
) -> Result<(), FileFault>
    ensures touches { Told (Touches (touched_of level inv.now) (level + 1) stamp) (D.files disk.old) (D.files disk.new) }
    ensures touched { OnOk result (Told (λ _ files. AreTouched (touched_of level inv.now) stamp files) (D.files disk.old) (D.files disk.new)) }
    ensures cause { HasFileCause (D.faults disk.old) (D.faults disk.new) result }
    ensures calls { MakesDocrootCalls (D.calls disk.old) (D.calls disk.new) }
{
    docroot_calls_add_up();
    folders_are_mangled();
    folders_of_stamps_are_paths();
    a_path_has_bytes(&inv.handle);
    let _depth = inv.handle.depth();
    let folders = touched(alloc, level, inv)?;
    touch_all(alloc, disk, folders.as_slice(), stamp)
}

fn touch_all<D: Disk>(
    alloc: Global,
    disk: &mut D,
    folders: &[Path],
    stamp: Stamp,
) -> Result<(), FileFault>
    requires { (folder : Segments) → Contains folders.now folder → IsStampFolder folder }
    ensures touches { Told (Touches folders.now (length folders.now) stamp) (D.files disk.old) (D.files disk.new) }
    ensures touched { OnOk result (Told (λ _ files. AreTouched folders.now stamp files) (D.files disk.old) (D.files disk.new)) }
    ensures cause { HasFileCause (D.faults disk.old) (D.faults disk.new) result }
    ensures calls { MakesDocrootCalls (D.calls disk.old) (D.calls disk.new) }
{
    docroot_calls_add_up();
    for folder in folders {
        touch_folder(alloc, disk, folder, stamp)?;
    }
    Ok(())
}

fn touch_folder<D: Disk>(
    alloc: Global,
    disk: &mut D,
    folder: &Path,
    stamp: Stamp,
) -> Result<(), FileFault>
    requires { IsStampFolder folder.now }
    ensures touches { Told (Touches (folder.now ∷ []) 1 stamp) (D.files disk.old) (D.files disk.new) }
    ensures touched { OnOk result (Told (λ _ files. AreTouched (folder.now ∷ []) stamp files) (D.files disk.old) (D.files disk.new)) }
    ensures cause { HasFileCause (D.faults disk.old) (D.faults disk.new) result }
    ensures calls { MakesDocrootCalls (D.calls disk.old) (D.calls disk.new) }
{
    what_a_touch_sets();
    stamps_take_docroot_calls();
    folders_are_mangled();
    names_are_apart();
    numbers_fit(stamp.epoch, stamp.count);
    touch(alloc, disk, folder, stamp)
}

// The numbers of a stamp have 64 bits.
fn numbers_fit(epoch: u64, count: u64)
    ensures epoch { epoch < 2 ^ 64 }
    ensures count { count < 2 ^ 64 }
{}

// Takes the page at the handle away, where there may be one.
fn drop_at_handle<D: Disk>(alloc: Global, disk: &mut D, inv: &Invalidation) -> Result<(), FileFault>
    ensures takes { Told (TakesFiles (IsHandlePage inv.now) 2) (D.files disk.old) (D.files disk.new) }
    ensures gone { OnOk result (Told (λ _ files. IsHandleGone inv.now files) (D.files disk.old) (D.files disk.new)) }
    ensures cause { HasFileCause (D.faults disk.old) (D.faults disk.new) result }
    ensures calls { MakesDocrootCalls (D.calls disk.old) (D.calls disk.new) }
{
    docroot_calls_add_up();
    pages_take_docroot_calls();
    a_page_has_one_key();
    // The law speaks of paths, and that the handle is one is a clause of its depth.
    let _depth = inv.handle.depth();
    match page_key(alloc, &inv.handle)? {
        Some(key) => drop_page(alloc, disk, &key),
        None => Ok(()),
    }
}
