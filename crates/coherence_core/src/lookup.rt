//! A page that is looked up: in what is noted, and else in the store.
ghost use Rattle.std.specs.Prelude.{◌≡◌, IfOk, None, Some};
ghost use Rattle.coherence_core.specs.LookCalls.{AreRead, ReadsPage, stat_file};
ghost use Rattle.coherence_core.specs.Lookups.{IfAgreed, IsLook, NotesPage, ReadsFiles, stat_asked, GivesServed};
ghost use Rattle.coherence_core.specs.Served.{served};
ghost use Rattle.page_index.specs.Notes.{known_page};

use crate::look::Look;
use crate::noting::keep_asked;
use crate::page_parts::{head_of, is_stale, read_body};
use cache_files::a_page_is_its_head_and_its_body;
use docroot_changes::docroot_calls_add_up;
use docroot_format::FileFault;
use http_front::PreparedAnswer;
use page_index::{KnownPage, PageIndex};
use sp_outside::Disk;
use std::alloc::Global;

// The answer of a page, where its .stat file doesn't outdate it. Its head is looked at, then that file where it may outdate the page, then its
// body. What is noted of them isn't read, and what is read is noted where it may be.
pub(crate) fn look_up<D: Disk>(
    alloc: Global,
    disk: &mut D,
    pages: &mut PageIndex,
    look: &Look,
) -> Result<Option<PreparedAnswer>, FileFault>
    requires { IsLook look.now }
    ensures value { IfOk result (λ found. IfAgreed (D.files disk.old) pages.old (GivesServed look.now found)) }
    ensures notes { NotesPage look.now (D.files disk.old) pages.old pages.new }
    ensures reads { ReadsFiles (D.files disk.old) (D.files disk.new) (D.faults disk.old) (D.faults disk.new) (D.calls disk.old) (D.calls disk.new) result }
    ensures asks { ReadsPage (D.files disk.old) (D.calls disk.old) (D.calls disk.new) pages.old look.now.farm.now look.now.key.now result }
{
    a_page_is_its_head_and_its_body();
    docroot_calls_add_up();
    match pages.page(alloc, look.key)? {
        Some(page) => {
            keep_asked(pages, look.key);
            look_at_known(alloc, disk, pages, look, page)
        }
        None => look_in_files(alloc, disk, pages, look),
    }
}

// The answer of a page whose head and body are noted.
fn look_at_known<D: Disk>(
    alloc: Global,
    disk: &mut D,
    pages: &mut PageIndex,
    look: &Look,
    page: KnownPage,
) -> Result<Option<PreparedAnswer>, FileFault>
    requires { IsLook look.now }
    ensures value { IfOk result (λ found. IfAgreed (D.files disk.old) pages.old (λ files. served look.now.auto (stat_asked look.now files) (Some page) ≡ found)) }
    ensures notes { NotesPage look.now (D.files disk.old) pages.old pages.new }
    ensures reads { ReadsFiles (D.files disk.old) (D.files disk.new) (D.faults disk.old) (D.faults disk.new) (D.calls disk.old) (D.calls disk.new) result }
    ensures asks { AreRead (D.calls disk.old) (D.calls disk.new) (stat_file pages.old look.now.farm.now look.now.key.now) result }
{
    docroot_calls_add_up();
    if is_stale(alloc, disk, pages, look, page.stamp())? {
        return Ok(None);
    }
    Ok(Some(page.into_answer()))
}

// The answer of a page of which its head or its body isn't noted.
fn look_in_files<D: Disk>(
    alloc: Global,
    disk: &mut D,
    pages: &mut PageIndex,
    look: &Look,
) -> Result<Option<PreparedAnswer>, FileFault>
    requires look { IsLook look.now }
    requires unknown { known_page pages.old look.now.key.now ≡ None }
    ensures value { IfOk result (λ found. IfAgreed (D.files disk.old) pages.old (GivesServed look.now found)) }
    ensures notes { NotesPage look.now (D.files disk.old) pages.old pages.new }
    ensures reads { ReadsFiles (D.files disk.old) (D.files disk.new) (D.faults disk.old) (D.faults disk.new) (D.calls disk.old) (D.calls disk.new) result }
    ensures asks { ReadsPage (D.files disk.old) (D.calls disk.old) (D.calls disk.new) pages.old look.now.farm.now look.now.key.now result }
{
    a_page_is_its_head_and_its_body();
    docroot_calls_add_up();
    let Some(head) = head_of(alloc, disk, pages, look)? else {
        return Ok(None);
    };
    if is_stale(alloc, disk, pages, look, head.stamp)? {
        return Ok(None);
    }
    read_body(alloc, disk, pages, look.key, &head)
}
