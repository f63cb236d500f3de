//! What is noted of a page as it is looked up. A note for which there is no memory falls.
ghost use Rattle.std.specs.Prelude.{◌≡◌, IfOk};
ghost use Rattle.page_index.specs.Agreement.{HasNoneCovered};
ghost use Rattle.page_index.specs.Notes.{stamp_noted};
ghost use Rattle.sp_base.specs.Texts.{Segments};
ghost use Rattle.coherence_core.specs.Notes.{HoldsStill};
ghost use Rattle.coherence_core.specs.Lookups.{NotesHead, NotesHit, NotesStamp};

use crate::page_parts::copy_of;
use cache_files::HeadNote;
use cover_rules::{Invalidation, PageKey, Stamp};
use page_index::{
    PageIndex, a_counted_hit_agrees, a_noted_head_agrees, a_noted_stamp_agrees, fewer_notes_agree,
    forgotten_notes_agree,
};
use sp_base::{ByteBuf, Mem, Path};
use std::alloc::Global;

// Notes the head of a page, or that it has none.
pub(crate) fn note_head(
    alloc: Global,
    pages: &mut PageIndex,
    key: &PageKey,
    head: &Option<HeadNote>,
)
    ensures notes { NotesHead key.now head.now pages.old pages.new }
    ensures stamps { (folder : Segments) → stamp_noted pages.new folder ≡ stamp_noted pages.old folder }
{
    a_noted_head_agrees();
    forgotten_notes_agree();
    fewer_notes_agree();
    let Ok(head) = copy_of_any(alloc, head) else {
        return;
    };
    match pages.note(alloc, key, head) {
        Ok(()) => {}
        Err(_) => {}
    }
}

fn copy_of_any(alloc: Global, head: &Option<HeadNote>) -> Mem<Option<HeadNote>>
    ensures { IfOk result (λ copy. copy ≡ head.now) }
{
    match head {
        Some(head) => Ok(Some(copy_of(alloc, head)?)),
        None => Ok(None),
    }
}

// Lets what is noted of a page stay longer than what nobody asks for.
pub(crate) fn keep_asked(pages: &mut PageIndex, key: &PageKey)
    ensures notes { HoldsStill pages.old pages.new }
    ensures stamps { (folder : Segments) → stamp_noted pages.new folder ≡ stamp_noted pages.old folder }
{
    forgotten_notes_agree();
    fewer_notes_agree();
    match pages.note_asked(key) {
        Ok(()) => {}
        Err(_) => {}
    }
}

// Forgets what an invalidation covers.
pub(crate) fn forget_covered(alloc: Global, pages: &mut PageIndex, level: usize, inv: &Invalidation)
    ensures notes { HoldsStill pages.old pages.new }
    ensures forgotten { HasNoneCovered level inv.now pages.new }
{
    forgotten_notes_agree();
    fewer_notes_agree();
    pages.forget_covered(alloc, level, inv);
}

// Counts a hit of a page that has this body.
pub(crate) fn note_hit(alloc: Global, pages: &mut PageIndex, key: &PageKey, body: &mut ByteBuf)
    ensures notes { NotesHit key.now body.old pages.old pages.new }
    ensures same { body.new ≡ body.old }
{
    a_counted_hit_agrees();
    forgotten_notes_agree();
    fewer_notes_agree();
    match pages.hit(alloc, key, body) {
        Ok(()) => {}
        Err(_) => {}
    }
}

// Notes the stamp of a folder, or that it has none.
pub(crate) fn note_stamp(alloc: Global, pages: &mut PageIndex, folder: &Path, stamp: Option<Stamp>)
    ensures { NotesStamp folder.now stamp pages.old pages.new }
{
    a_noted_stamp_agrees();
    forgotten_notes_agree();
    fewer_notes_agree();
    match pages.note_stat(alloc, folder, stamp) {
        Ok(()) => {}
        Err(_) => {}
    }
}
