//! The parts of a page: its head, the stamp of its folder and its body, as they are noted, and else as the files have them.
ghost use Rattle.std.specs.Prelude.{◌≡◌, ◌∷◌, [], ℕ, IfOk, IfSome, IsTrue, Some, true, option_map};
ghost use Rattle.cover_rules.specs.Coverage.{stat_folder};
ghost use Rattle.cover_rules.specs.Pages.{IsPageKey};
ghost use Rattle.cover_rules.specs.declared.invalidation.Invalidation.{Invalidation};
ghost use Rattle.docroot_changes.specs.Changes.{IsStampFolder};
ghost use Rattle.cache_files.specs.Pages.{head_at, known_at, page_body_name, page_head_name};
ghost use Rattle.docroot_format.specs.Names.{stat_name};
ghost use Rattle.page_index.specs.Agreement.{Agrees, HasNoneCovered};
ghost use Rattle.page_index.specs.Notes.{head_noted, stamp_noted};
ghost use Rattle.sp_base.specs.Paths.{is_path};
ghost use Rattle.sp_base.specs.Texts.{Segments};
ghost use Rattle.stat_files.specs.Outdated as outdated;
ghost use Rattle.stat_files.specs.Stamps.{stamp_at};
ghost use Rattle.coherence_core.specs.LookCalls.{AreRead, folder_file, head_file, stat_file};
ghost use Rattle.coherence_core.specs.Lookups.{IfAgreed, IsLook, NotesPage, ReadsFiles, stat_asked, TellsOutdated};

use crate::laws::coverage_by_three_facts;
use crate::look::{Look, may_be_noted};
use crate::noting::{note_head, note_hit, note_stamp};
use cache_files::{HeadNote, a_page_is_its_head_and_its_body, get_head, get_known};
use cover_rules::{PageKey, Stamp, stat_depth};
use docroot_changes::{docroot_calls_add_up, pages_take_docroot_calls, stamps_take_docroot_calls};
use docroot_format::{FileFault, folders_are_mangled};
use http_front::PreparedAnswer;
use page_index::PageIndex;
use sp_base::{Mem, Path};
use sp_outside::Disk;
use stat_files::{outdates_page, stamp_of};
use std::alloc::Global;

// ---- the head

// The head of a page, or that it has none.
pub(crate) fn head_of<D: Disk>(
    alloc: Global,
    disk: &mut D,
    pages: &mut PageIndex,
    look: &Look,
) -> Result<Option<HeadNote>, FileFault>
    requires { IsLook look.now }
    ensures value { IfOk result (λ head. IfAgreed (D.files disk.old) pages.old (λ files. head_at files look.now.key.now ≡ head)) }
    ensures notes { NotesPage look.now (D.files disk.old) pages.old pages.new }
    ensures reads { ReadsFiles (D.files disk.old) (D.files disk.new) (D.faults disk.old) (D.faults disk.new) (D.calls disk.old) (D.calls disk.new) result }
    ensures asks { AreRead (D.calls disk.old) (D.calls disk.new) (head_file pages.old look.now.key.now) result }
    ensures stamps { (folder : Segments) → stamp_noted pages.new folder ≡ stamp_noted pages.old folder }
{
    docroot_calls_add_up();
    match noted_head(alloc, pages, look.key)? {
        Some(head) => Ok(head),
        None => read_head(alloc, disk, pages, look),
    }
}

// What is noted of the head.
fn noted_head(alloc: Global, pages: &PageIndex, key: &PageKey) -> Mem<Option<Option<HeadNote>>>
    ensures { IfOk result (λ noted. noted ≡ head_noted pages.now key.now) }
{
    match pages.head(key) {
        Some(Some(head)) => Ok(Some(Some(copy_of(alloc, head)?))),
        Some(None) => Ok(Some(None)),
        None => Ok(None),
    }
}

pub(crate) fn copy_of(alloc: Global, head: &HeadNote) -> Mem<HeadNote>
    ensures { IfOk result (λ copy. copy ≡ head.now) }
{
    Ok(HeadNote {
        stamp: head.stamp,
        kind: head.kind.duplicate(alloc)?,
        length: head.length,
    })
}

// Reads the head, and notes it where it may be.
fn read_head<D: Disk>(
    alloc: Global,
    disk: &mut D,
    pages: &mut PageIndex,
    look: &Look,
) -> Result<Option<HeadNote>, FileFault>
    requires { IsLook look.now }
    ensures value { IfOk result (λ head. IfAgreed (D.files disk.old) pages.old (λ files. head_at files look.now.key.now ≡ head)) }
    ensures notes { NotesPage look.now (D.files disk.old) pages.old pages.new }
    ensures reads { ReadsFiles (D.files disk.old) (D.files disk.new) (D.faults disk.old) (D.faults disk.new) (D.calls disk.old) (D.calls disk.new) result }
    ensures asks { AreRead (D.calls disk.old) (D.calls disk.new) (page_head_name look.now.key.now ∷ []) result }
    ensures stamps { (folder : Segments) → stamp_noted pages.new folder ≡ stamp_noted pages.old folder }
{
    pages_take_docroot_calls();
    let head = get_head(alloc, disk, look.key)?;
    if !may_be_noted(look) {
        return Ok(head);
    }
    note_head(alloc, pages, look.key, &head);
    Ok(head)
}

// ---- the stamp of its folder

// Whether its .stat file outdates a page with this stamp: never where .stat files don't outdate the page.
pub(crate) fn is_stale<D: Disk>(
    alloc: Global,
    disk: &mut D,
    pages: &mut PageIndex,
    look: &Look,
    page: Stamp,
) -> Result<bool, FileFault>
    requires { IsLook look.now }
    ensures value { IfOk result (λ is. IfAgreed (D.files disk.old) pages.old (TellsOutdated look.now page is)) }
    ensures notes { NotesPage look.now (D.files disk.old) pages.old pages.new }
    ensures reads { ReadsFiles (D.files disk.old) (D.files disk.new) (D.faults disk.old) (D.faults disk.new) (D.calls disk.old) (D.calls disk.new) result }
    ensures asks { AreRead (D.calls disk.old) (D.calls disk.new) (stat_file pages.old look.now.farm.now look.now.key.now) result }
{
    docroot_calls_add_up();
    if look.auto {
        is_outdated(alloc, disk, pages, look, page)
    } else {
        Ok(false)
    }
}

// The same where .stat files outdate the page.
fn is_outdated<D: Disk>(
    alloc: Global,
    disk: &mut D,
    pages: &mut PageIndex,
    look: &Look,
    page: Stamp,
) -> Result<bool, FileFault>
    requires look { IsLook look.now }
    requires auto { look.now.auto ≡ true }
    ensures value { IfOk result (λ is. IfAgreed (D.files disk.old) pages.old (λ files. outdated.outdates_page (stat_asked look.now files) page ≡ is)) }
    ensures notes { NotesPage look.now (D.files disk.old) pages.old pages.new }
    ensures reads { ReadsFiles (D.files disk.old) (D.files disk.new) (D.faults disk.old) (D.faults disk.new) (D.calls disk.old) (D.calls disk.new) result }
    ensures asks { AreRead (D.calls disk.old) (D.calls disk.new) (folder_file pages.old (stat_folder look.now.farm.now.level look.now.key.now)) result }
{
    coverage_by_three_facts();
    docroot_calls_add_up();
    let folder = look
        .key
        .folder
        .first(alloc, stat_depth(look.farm.level, look.key))?;
    // The law of its calls speaks of a path, and that the folder is one is a clause of its depth.
    let _depth = folder.depth();
    let stat = folder_stamp(alloc, disk, pages, look, &folder)?;
    Ok(outdates_page(stat, page))
}

// The stamp of the folder whose .stat file is asked for a page, or that it has none.
fn folder_stamp<D: Disk>(
    alloc: Global,
    disk: &mut D,
    pages: &mut PageIndex,
    look: &Look,
    folder: &Path,
) -> Result<Option<Stamp>, FileFault>
    requires look { IsLook look.now }
    requires auto { look.now.auto ≡ true }
    requires folder { folder.now ≡ stat_folder look.now.farm.now.level look.now.key.now }
    requires path { IsTrue (is_path folder.now) }
    requires stamp { IsStampFolder folder.now }
    ensures value { IfOk result (λ stamp. IfAgreed (D.files disk.old) pages.old (λ files. stamp_at files folder.now ≡ stamp)) }
    ensures notes { NotesPage look.now (D.files disk.old) pages.old pages.new }
    ensures reads { ReadsFiles (D.files disk.old) (D.files disk.new) (D.faults disk.old) (D.faults disk.new) (D.calls disk.old) (D.calls disk.new) result }
    ensures asks { AreRead (D.calls disk.old) (D.calls disk.new) (folder_file pages.old folder.now) result }
{
    docroot_calls_add_up();
    match pages.stat(folder) {
        Some(stamp) => Ok(stamp),
        None => read_stamp(alloc, disk, pages, look, folder),
    }
}

// Reads the stamp of the folder whose .stat file is asked for a page, and notes it where it may be.
fn read_stamp<D: Disk>(
    alloc: Global,
    disk: &mut D,
    pages: &mut PageIndex,
    look: &Look,
    folder: &Path,
) -> Result<Option<Stamp>, FileFault>
    requires look { IsLook look.now }
    requires auto { look.now.auto ≡ true }
    requires folder { folder.now ≡ stat_folder look.now.farm.now.level look.now.key.now }
    requires path { IsTrue (is_path folder.now) }
    ensures value { IfOk result (λ stamp. IfSome (D.files disk.old) (λ files. stamp_at files folder.now ≡ stamp)) }
    ensures notes { NotesPage look.now (D.files disk.old) pages.old pages.new }
    ensures reads { ReadsFiles (D.files disk.old) (D.files disk.new) (D.faults disk.old) (D.faults disk.new) (D.calls disk.old) (D.calls disk.new) result }
    ensures asks { AreRead (D.calls disk.old) (D.calls disk.new) (stat_name folder.now ∷ []) result }
{
    coverage_by_three_facts();
    folders_are_mangled();
    stamps_take_docroot_calls();
    let stamp = stamp_of(alloc, disk, folder)?;
    if may_be_noted(look) {
        note_stamp(alloc, pages, folder, stamp);
    }
    Ok(stamp)
}

// ---- the body

// Reads the page under its head, and counts the hit. That is noted of a page alone whose head is.
pub(crate) fn read_body<D: Disk>(
    alloc: Global,
    disk: &mut D,
    pages: &mut PageIndex,
    key: &PageKey,
    head: &HeadNote,
) -> Result<Option<PreparedAnswer>, FileFault>
    requires { IsPageKey key.now }
    ensures value { IfOk result (λ answer. IfSome (D.files disk.old) (λ files. option_map (λ page. page.answer) (known_at files key.now head.now) ≡ answer)) }
    ensures agree { IfSome (D.files disk.old) (λ files. head_at files key.now ≡ Some head.now → Agrees pages.old files → Agrees pages.new files) }
    ensures apart { (level : ℕ) (inv : Invalidation) → HasNoneCovered level inv pages.old → HasNoneCovered level inv pages.new }
    ensures reads { ReadsFiles (D.files disk.old) (D.files disk.new) (D.faults disk.old) (D.faults disk.new) (D.calls disk.old) (D.calls disk.new) result }
    ensures asks { AreRead (D.calls disk.old) (D.calls disk.new) (page_body_name key.now ∷ []) result }
{
    a_page_is_its_head_and_its_body();
    pages_take_docroot_calls();
    let Some(page) = get_known(alloc, disk, key, head)? else {
        return Ok(None);
    };
    let mut answer = page.answer;
    note_hit(alloc, pages, key, &mut answer.body);
    Ok(Some(PreparedAnswer::of(answer)))
}
