//! Pages, each a file of its body and a file of its head.
ghost use Rattle.std.specs.Prelude.{◌≡◌, ◌∷◌, [], IfOk, IfErr, IfSome, OnOk};
ghost use Rattle.sp_outside.specs.Calls.{Get, MadeFirst, told_calls};
ghost use Rattle.docroot_format.specs.Faults.{HasFileCause};
ghost use Rattle.cover_rules.specs.Pages.{IsPageKey};
ghost use Rattle.cache_files.specs.Pages.{IsStorable, IsPutLeft, IsDropLeft, IsGetLeft, drop_calls, page_at, page_body_name, page_calls, page_head_name, put_calls, told_with_page, told_without_page};

use crate::head_note::{get_head, get_under};
use cover_rules::{PageKey, Stamp};
use docroot_format::{FileFault, a_page_has_files, body_name, head_name, head_text};
use sp_base::Answer;
use sp_outside::Disk;
use std::alloc::Global;

/// A stored answer, and when it was asked for.
#[derive(Drop)]
pub struct Page {
    pub stamp: Stamp,
    pub answer: Answer,
}

/// Stores a page in place of an older one: takes the old head away, then writes the body, then the head, so that at no moment a head
/// stands beside another page's body. The texts are made before the first of these.
pub fn put_page<D: Disk>(
    alloc: Global,
    disk: &mut D,
    key: &PageKey,
    stamp: Stamp,
    answer: &Answer,
) -> Result<(), FileFault>
    requires key { IsPageKey key.now }
    requires storable { IsStorable answer.now }
    ensures ok { OnOk result (D.files disk.new ≡ told_with_page (D.files disk.old) key.now stamp answer.now) }
    ensures made { OnOk result (D.calls disk.new ≡ told_calls (D.calls disk.old) (put_calls key.now stamp answer.now)) }
    ensures err { IfErr result (IsPutLeft (D.calls disk.old) (D.calls disk.new) (D.files disk.old) (D.files disk.new) key.now stamp answer.now) }
    ensures cause { HasFileCause (D.faults disk.old) (D.faults disk.new) result }
{
    a_page_has_files();
    let head_file = head_name(alloc, &key.folder, key.file.text())?;
    let body_file = body_name(alloc, &key.folder, key.file.text())?;
    let bytes = answer.body.bytes();
    let head = head_text(alloc, stamp, bytes.len(), answer.kind.text())?;
    disk.remove(head_file.text())?;
    disk.put(body_file.text(), bytes)?;
    disk.put(head_file.text(), head.text().as_bytes())?;
    Ok(())
}

/// The page of a key. There is none where its head is missing or of another form, or its body is missing or of another length. The
/// body is read only where the head is of the form.
pub fn get_page<D: Disk>(
    alloc: Global,
    disk: &mut D,
    key: &PageKey,
) -> Result<Option<Page>, FileFault>
    requires { IsPageKey key.now }
    ensures value { IfOk result (λ page. IfSome (D.files disk.old) (λ files. page ≡ page_at files key.now)) }
    ensures same { D.files disk.new ≡ D.files disk.old }
    ensures made { IfOk result (λ _. IfSome (D.files disk.old) (λ files. D.calls disk.new ≡ told_calls (D.calls disk.old) (page_calls files key.now))) }
    ensures asked { MadeFirst (D.calls disk.old) (D.calls disk.new) (Get (page_head_name key.now) ∷ Get (page_body_name key.now) ∷ []) }
    ensures left { IfErr result (IsGetLeft (D.calls disk.old) (D.calls disk.new) (D.files disk.old) key.now) }
    ensures cause { HasFileCause (D.faults disk.old) (D.faults disk.new) result }
{
    let Some(head) = get_head(alloc, disk, key)? else {
        return Ok(None);
    };
    get_under(alloc, disk, key, head)
}

/// Takes a page away: its head, then its body.
pub fn drop_page<D: Disk>(alloc: Global, disk: &mut D, key: &PageKey) -> Result<(), FileFault>
    requires { IsPageKey key.now }
    ensures ok { OnOk result (D.files disk.new ≡ told_without_page (D.files disk.old) key.now) }
    ensures made { OnOk result (D.calls disk.new ≡ told_calls (D.calls disk.old) (drop_calls key.now)) }
    ensures err { IfErr result (IsDropLeft (D.calls disk.old) (D.calls disk.new) (D.files disk.old) (D.files disk.new) key.now) }
    ensures cause { HasFileCause (D.faults disk.old) (D.faults disk.new) result }
{
    a_page_has_files();
    let head = head_name(alloc, &key.folder, key.file.text())?;
    let body = body_name(alloc, &key.folder, key.file.text())?;
    disk.remove(head.text())?;
    disk.remove(body.text())?;
    Ok(())
}
