//! A walk through the names of files, which takes pages away.
ghost use Rattle.std.specs.Prelude.{◌≡◌, ◌<◌, ◌≤◌, None, Contains, IfOk, IsTrue, OnOk, length};
ghost use Rattle.sp_base.specs.Texts.{Text};
ghost use Rattle.sp_outside.specs.Causes.{HasDiskCause};
ghost use Rattle.sp_outside.specs.Files.{file_at};
ghost use Rattle.docroot_format.specs.Faults.{HasFileCause};
ghost use Rattle.docroot_format.specs.Names as spec;
ghost use Rattle.docroot_changes.specs.Changes.{Told};
ghost use Rattle.docroot_changes.specs.DocrootCalls.{IsListedPrefix, MakesDocrootCalls};
ghost use Rattle.invalidation.specs.Slices.{IsListedPage, slice_names};
ghost use Rattle.invalidation.specs.Walks.{AreNamesApart, AreGone, IsNextPrefix, IsPageAmong, IsThisPage, TakesFiles, Walked, WalkedOn};

use crate::place::WalkPlace;
use docroot_changes::docroot_calls_add_up;
use docroot_format::{FileFault, is_page_file};
use sp_base::{NameList, TextBuf};
use sp_outside::{Disk, DiskFault, files_have_names, nothing_is_passed_over};
use std::alloc::Global;

// How many names a slice looks at, at most.
const SLICE_NAMES: usize = 64;

/// Goes on through the names that begin with one of the prefixes, past 64 of them at most, and takes the pages among these away: `true`
/// where there may be more.
pub(crate) fn walk<D: Disk>(
    alloc: Global,
    disk: &mut D,
    prefixes: &NameList,
    place: &mut WalkPlace,
) -> Result<bool, FileFault>
    requires apart { AreNamesApart prefixes.now }
    requires listed { (prefix : Text) → Contains prefixes.now prefix → IsListedPrefix prefix }
    ensures takes { Told (TakesFiles (IsListedPage prefixes.now) slice_names) (D.files disk.old) (D.files disk.new) }
    ensures walked { IfOk result (λ more. Told (WalkedOn prefixes.now place.old place.new more) (D.files disk.old) (D.files disk.new)) }
    ensures cause { HasFileCause (D.faults disk.old) (D.faults disk.new) result }
    ensures calls { MakesDocrootCalls (D.calls disk.old) (D.calls disk.new) }
{
    docroot_calls_add_up();
    let mut left = SLICE_NAMES;
    while place.prefix < prefixes.len() {
        let seen = look_at(alloc, disk, prefixes, place, left)?;
        if seen == left {
            return Ok(true);
        }
        left -= seen;
    }
    Ok(false)
}

// Lists the next names at a place, so many at most, and takes the pages among them away.
fn look_at<D: Disk>(
    alloc: Global,
    disk: &mut D,
    prefixes: &NameList,
    place: &mut WalkPlace,
    most: usize,
) -> Result<usize, FileFault>
    requires most { 0 < most }
    requires place { place.old.prefix < length prefixes.now }
    requires apart { AreNamesApart prefixes.now }
    requires listed { (prefix : Text) → Contains prefixes.now prefix → IsListedPrefix prefix }
    ensures takes { Told (TakesFiles (IsListedPage prefixes.now) most) (D.files disk.old) (D.files disk.new) }
    ensures walked { IfOk result (λ seen. Told (Walked prefixes.now place.old place.new seen) (D.files disk.old) (D.files disk.new)) }
    ensures next { IfOk result (λ seen. IsNextPrefix place.old seen most place.new) }
    ensures cause { HasFileCause (D.faults disk.old) (D.faults disk.new) result }
    ensures calls { MakesDocrootCalls (D.calls disk.old) (D.calls disk.new) }
{
    docroot_calls_add_up();
    nothing_is_passed_over();
    // That the number of prefixes has 64 bits is a clause of their count.
    let _count = prefixes.len();
    let Some(prefix) = prefixes.get(place.prefix) else {
        unreachable!()
    };
    let names = disk.list(alloc, prefix.text(), place.last.text(), most)?;
    let next = place.after(alloc, &names, most)?;
    take_pages(disk, names.as_slice())?;
    *place = next;
    Ok(names.len())
}

// Takes those of these names away that are pages' files.
fn take_pages<D: Disk>(disk: &mut D, names: &[TextBuf]) -> Result<(), DiskFault>
    ensures takes { Told (TakesFiles (IsPageAmong names.now) (length names.now)) (D.files disk.old) (D.files disk.new) }
    ensures gone { OnOk result (Told (λ _ files. AreGone names.now files) (D.files disk.old) (D.files disk.new)) }
    ensures cause { HasDiskCause (D.faults disk.old) (D.faults disk.new) result }
    ensures calls { MakesDocrootCalls (D.calls disk.old) (D.calls disk.new) }
{
    docroot_calls_add_up();
    for name in names {
        take_page(disk, name.text())?;
    }
    Ok(())
}

// Takes the file of this name away, where it is a page's.
fn take_page<D: Disk>(disk: &mut D, name: &str) -> Result<(), DiskFault>
    ensures takes { Told (TakesFiles (IsThisPage name.now) 1) (D.files disk.old) (D.files disk.new) }
    ensures gone { OnOk result (Told (λ _ files. IsTrue (spec.is_page_file name.now) → file_at files name.now ≡ None) (D.files disk.old) (D.files disk.new)) }
    ensures cause { HasDiskCause (D.faults disk.old) (D.faults disk.new) result }
    ensures calls { MakesDocrootCalls (D.calls disk.old) (D.calls disk.new) }
{
    docroot_calls_add_up();
    files_have_names();
    if is_page_file(name) {
        disk.remove(name)
    } else {
        Ok(())
    }
}
