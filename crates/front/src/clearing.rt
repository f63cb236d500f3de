//! Files that are cleared away before the first step, so that a front begins with none of a session before.
ghost use Rattle.std.specs.Prelude.{◌≡◌, ◌≤◌, IfOk, IfSome, IsTrue, None, OnOk, length};
ghost use Rattle.coherence_core.specs.Openings.{IsCleared};
ghost use Rattle.docroot_changes.specs.Changes.{Told};
ghost use Rattle.docroot_changes.specs.DocrootCalls.{MakesDocrootCalls};
ghost use Rattle.docroot_format.specs.Faults.{HasFileCause};
ghost use Rattle.front.specs.Clearings as spec;
ghost use Rattle.front.specs.Clearings.{ClearsFiles, ClearsPagesFirst, HasNoFile, HasNoneAmong, HasNoneBetween, IsNearer, is_page_or_stamp};
ghost use Rattle.front.specs.Fronts.{FrontBeginsFresh};
ghost use Rattle.sp_outside.specs.Causes.{HasDiskCause};
ghost use Rattle.sp_outside.specs.Files.{file_at, longest_file_name};

use crate::front::Front;
use crate::renderer::Renderer;
use coherence_core::a_session_begins_without_pages;
use docroot_format::{FileFault, is_page_file, is_stat_file, names_tell_their_files};
use sp_base::TextBuf;
use sp_outside::{Disk, DiskFault, fewer_names_follow, files_have_names, nothing_is_passed_over};
use std::alloc::Global;

// How many names are listed at once, at most.
const NAMES_LISTED: usize = 256;

// Which files are cleared away.
#[derive(Clone, Copy, Drop)]
pub(crate) enum CacheFile {
    Page,
    Stamp,
}

impl<R: Renderer + Drop> Front<R> {
    /// Clears each page file away, and then each .stat file, so that a front that `new` gave begins with no page of a session before. It is to be
    /// called before the first step. The .stat files go last (`order`), since pages are outdated by them: a call that fails half-way leaves no page
    /// that was outdated and isn't any more.
    pub fn fresh<D: Disk>(&self, alloc: Global, disk: &mut D) -> Result<(), FileFault>
        ensures stands { OnOk result (FrontBeginsFresh R.publishing R.content D.files D.faults self.now disk.old disk.new) }
        ensures left { Told (ClearsFiles is_page_or_stamp) (D.files disk.old) (D.files disk.new) }
        ensures order { Told ClearsPagesFirst (D.files disk.old) (D.files disk.new) }
        ensures cleared { OnOk result (Told (λ _ files. IsCleared files) (D.files disk.old) (D.files disk.new)) }
        ensures cause { HasFileCause (D.faults disk.old) (D.faults disk.new) result }
        ensures calls { MakesDocrootCalls (D.calls disk.old) (D.calls disk.new) }
    {
        a_session_begins_without_pages();
        names_tell_their_files();
        clear(alloc, disk, CacheFile::Page)?;
        clear(alloc, disk, CacheFile::Stamp)
    }
}

// Clears the cache's files of this kind away.
fn clear<D: Disk>(alloc: Global, disk: &mut D, cache_file: CacheFile) -> Result<(), FileFault>
    ensures left { Told (ClearsFiles (spec.is_of_cache cache_file)) (D.files disk.old) (D.files disk.new) }
    ensures none { OnOk result (Told (λ _ files. HasNoFile cache_file files) (D.files disk.old) (D.files disk.new)) }
    ensures cause { HasFileCause (D.faults disk.old) (D.faults disk.new) result }
    ensures calls { MakesDocrootCalls (D.calls disk.old) (D.calls disk.new) }
{
    let mut last = TextBuf::of(alloc, "")?;
    while let Some(next) = clear_next(alloc, disk, cache_file, &last)? {
        last = next;
    }
    Ok(())
}

// Clears those files of this kind away that are among the next names after this one. The last of these is given, where more may follow.
fn clear_next<D: Disk>(
    alloc: Global,
    disk: &mut D,
    cache_file: CacheFile,
    last: &TextBuf,
) -> Result<Option<TextBuf>, FileFault>
    requires { length last.now ≤ longest_file_name }
    ensures left { Told (ClearsFiles (spec.is_of_cache cache_file)) (D.files disk.old) (D.files disk.new) }
    ensures none { IfOk result (λ next. Told (λ _ files. HasNoneBetween cache_file last.now next files) (D.files disk.old) (D.files disk.new)) }
    ensures nearer { IfOk result (λ next. IfSome next (IsNearer last.now)) }
    ensures cause { HasFileCause (D.faults disk.old) (D.faults disk.new) result }
    ensures calls { MakesDocrootCalls (D.calls disk.old) (D.calls disk.new) }
{
    nothing_is_passed_over();
    fewer_names_follow();
    let names = disk.list(alloc, "", last.text(), NAMES_LISTED)?;
    clear_names(disk, cache_file, names.as_slice())?;
    match names.get(NAMES_LISTED - 1) {
        Some(next) => Ok(Some(next.duplicate(alloc)?)),
        None => Ok(None),
    }
}

// Clears the files with these names away that are of this kind.
fn clear_names<D: Disk>(
    disk: &mut D,
    cache_file: CacheFile,
    names: &[TextBuf],
) -> Result<(), DiskFault>
    ensures left { Told (ClearsFiles (spec.is_of_cache cache_file)) (D.files disk.old) (D.files disk.new) }
    ensures none { OnOk result (Told (λ _ files. HasNoneAmong cache_file names.now files) (D.files disk.old) (D.files disk.new)) }
    ensures cause { HasDiskCause (D.faults disk.old) (D.faults disk.new) result }
    ensures calls { MakesDocrootCalls (D.calls disk.old) (D.calls disk.new) }
{
    for name in names {
        clear_name(disk, cache_file, name.text())?;
    }
    Ok(())
}

// Clears the file of this name away, where it is of this kind.
fn clear_name<D: Disk>(disk: &mut D, cache_file: CacheFile, name: &str) -> Result<(), DiskFault>
    ensures left { Told (ClearsFiles (spec.is_of_cache cache_file)) (D.files disk.old) (D.files disk.new) }
    ensures gone { OnOk result (Told (λ _ files. IsTrue (spec.is_of_cache cache_file name.now) → file_at files name.now ≡ None) (D.files disk.old) (D.files disk.new)) }
    ensures cause { HasDiskCause (D.faults disk.old) (D.faults disk.new) result }
    ensures calls { MakesDocrootCalls (D.calls disk.old) (D.calls disk.new) }
{
    files_have_names();
    if is_of_cache(cache_file, name) {
        disk.remove(name)
    } else {
        Ok(())
    }
}

// Whether the file of this name is of this kind.
fn is_of_cache(cache_file: CacheFile, name: &str) -> bool
    ensures { result ≡ spec.is_of_cache cache_file name.now }
{
    match cache_file {
        CacheFile::Page => is_page_file(name),
        CacheFile::Stamp => is_stat_file(name),
    }
}
