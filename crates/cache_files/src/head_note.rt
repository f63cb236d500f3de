//! The head of a page by itself, and the page under a head that was read: between the two a page's stamp may be compared, so that one
//! that is outdated costs no body.
ghost use Rattle.std.specs.Prelude.{◌≡◌, IfOk, IfErr, IfSome, true, option_map};
ghost use Rattle.sp_outside.specs.Calls.{Get, told_call};
ghost use Rattle.docroot_format.specs.Faults.{HasFileCause};
ghost use Rattle.docroot_format.specs.Readings.{head_of};
ghost use Rattle.cover_rules.specs.Pages.{IsPageKey};
ghost use Rattle.cache_files.specs.Pages.{IsCallLeft, head_at, known_at, note_of, page_body_name, page_head_name, page_under};

use crate::page::Page;
use cover_rules::{PageKey, Stamp};
use docroot_format::{FileFault, a_page_has_files, body_name, head_in, head_name};
use sp_base::{Answer, ByteBuf, Mark, Mem, TextBuf};
use sp_outside::Disk;
use std::alloc::Global;

/// What the head of a page says.
#[derive(Drop)]
pub struct HeadNote {
    pub stamp: Stamp,
    /// The media type of the body.
    pub kind: TextBuf,
    /// The length of the body.
    pub length: u64,
}

impl HeadNote {
    fn duplicate(&self, alloc: Global) -> Mem<HeadNote>
        ensures { IfOk result (λ head. head ≡ self.now) }
    {
        Ok(HeadNote {
            stamp: self.stamp,
            kind: self.kind.duplicate(alloc)?,
            length: self.length,
        })
    }
}

// What the bytes of a head say; nothing where they are of another form.
fn note_in(alloc: Global, head: &[u8]) -> Mem<Option<HeadNote>>
    ensures { IfOk result (λ note. note ≡ option_map note_of (head_of head.now)) }
{
    let Some(line) = head_in(head) else {
        return Ok(None);
    };
    Ok(Some(HeadNote {
        stamp: line.stamp,
        kind: TextBuf::of(alloc, line.kind)?,
        length: line.size,
    }))
}

/// The head of a key's page, or None where it is missing or of another form. The body isn't read.
pub fn get_head<D: Disk>(
    alloc: Global,
    disk: &mut D,
    key: &PageKey,
) -> Result<Option<HeadNote>, FileFault>
    requires { IsPageKey key.now }
    ensures value { IfOk result (λ head. IfSome (D.files disk.old) (λ files. head ≡ head_at files key.now)) }
    ensures same { D.files disk.new ≡ D.files disk.old }
    ensures made { IfOk result (λ _. D.calls disk.new ≡ told_call (D.calls disk.old) (Get (page_head_name key.now) true)) }
    ensures left { IfErr result (IsCallLeft (D.calls disk.old) (D.calls disk.new) (Get (page_head_name key.now))) }
    ensures cause { HasFileCause (D.faults disk.old) (D.faults disk.new) result }
{
    a_page_has_files();
    let name = head_name(alloc, &key.folder, key.file.text())?;
    match disk.get(alloc, name.text())? {
        Some(head) => Ok(note_in(alloc, head.bytes())?),
        None => Ok(None),
    }
}

/// The page of a key under its head, or None where its body is missing or of another length. The head isn't read again.
pub fn get_known<D: Disk>(
    alloc: Global,
    disk: &mut D,
    key: &PageKey,
    head: &HeadNote,
) -> Result<Option<Page>, FileFault>
    requires { IsPageKey key.now }
    ensures value { IfOk result (λ page. IfSome (D.files disk.old) (λ files. page ≡ known_at files key.now head.now)) }
    ensures same { D.files disk.new ≡ D.files disk.old }
    ensures made { IfOk result (λ _. D.calls disk.new ≡ told_call (D.calls disk.old) (Get (page_body_name key.now) true)) }
    ensures left { IfErr result (IsCallLeft (D.calls disk.old) (D.calls disk.new) (Get (page_body_name key.now))) }
    ensures cause { HasFileCause (D.faults disk.old) (D.faults disk.new) result }
{
    let head = head.duplicate(alloc)?;
    get_under(alloc, disk, key, head)
}

// The same of a head that becomes the page's.
pub(crate) fn get_under<D: Disk>(
    alloc: Global,
    disk: &mut D,
    key: &PageKey,
    head: HeadNote,
) -> Result<Option<Page>, FileFault>
    requires { IsPageKey key.now }
    ensures value { IfOk result (λ page. IfSome (D.files disk.old) (λ files. page ≡ known_at files key.now head)) }
    ensures same { D.files disk.new ≡ D.files disk.old }
    ensures made { IfOk result (λ _. D.calls disk.new ≡ told_call (D.calls disk.old) (Get (page_body_name key.now) true)) }
    ensures left { IfErr result (IsCallLeft (D.calls disk.old) (D.calls disk.new) (Get (page_body_name key.now))) }
    ensures cause { HasFileCause (D.faults disk.old) (D.faults disk.new) result }
{
    a_page_has_files();
    let name = body_name(alloc, &key.folder, key.file.text())?;
    match disk.get(alloc, name.text())? {
        Some(body) => Ok(page_under(alloc, head, body)?),
        None => Ok(None),
    }
}

// The page that a head and a body make.
fn page_under(alloc: Global, head: HeadNote, body: ByteBuf) -> Mem<Option<Page>>
    ensures { IfOk result (λ page. page ≡ page_under head body) }
{
    if body.bytes().len() as u64 != head.length {
        return Ok(None);
    }
    let HeadNote {
        stamp,
        kind,
        length: _,
    } = head;
    Ok(Some(Page {
        stamp,
        answer: Answer {
            status: 200,
            kind,
            location: TextBuf::of(alloc, "")?,
            mark: Mark::Plain,
            body,
        },
    }))
}
