//! With which of the files below its folder a disk begins.
ghost use Rattle.std.specs.Prelude.{◌≡◌, ◌≤◌, true, false, IfOk, IfSome, OnErr, OnOk, if◌then◌else◌, is_some};
ghost use Rattle.std.specs.FinMap.{contains_key, empty, insert};
ghost use Rattle.sp_outside.specs.FileNames as spec_names;
ghost use Rattle.sp_outside.specs.FileNames.{is_left};
ghost use Rattle.sp_outside.specs.Files.{file_at};
ghost use Rattle.sp_outside.specs.FolderFiles as spec;
ghost use Rattle.sp_outside.specs.FolderFiles.{HasNoFault, IsNamesOf, WhileTold, boot_file, disk_files, files_begun, is_same_boot, session_file};
ghost use Rattle.sp_outside.specs.NameIndex.{IsGone, IsLeftGone, IsLeftOrNot, IsLeftTaken, IsNamesOfDisk, IsRestKept, IsSameBut, IsTaken, IsTakenOrNot};

use crate::file_name::{is_inside, is_left, is_name};
use crate::names::Names;
use crate::{DiskFault, RawFiles};
use sp_base::{ByteBuf, TextBuf};
use std::alloc::Global;

/// The file that has the number of the session. Without it no session can tell its stamps from those of the files that stand there.
const SESSION_FILE: &str = ".epoch";

/// The file that keeps the id of the boot of the machine in which the others were written.
const BOOT_FILE: &str = ".boot%t%t";

// Whether a session has left its number.
#[tactic(auto, using(crate::proofs::Left::rises))]
fn has_session<F: RawFiles>(below: &mut F, alloc: Global) -> Result<bool, DiskFault>
    ensures value { IfOk result (λ has. IfSome (F.files below.old) (λ files. has ≡ is_some (file_at files session_file))) }
    ensures same { F.files below.new ≡ F.files below.old }
    ensures rising { F.faults below.old ≤ F.faults below.new }
{
    Ok(below.read(alloc, SESSION_FILE)?.is_some())
}

fn is_same(id: &Option<ByteBuf>, kept: &Option<ByteBuf>) -> bool
    ensures { result ≡ is_same_boot id.now kept.now }
{
    match (id, kept) {
        (Some(id), Some(kept)) => id.bytes() == kept.bytes(),
        _ => false,
    }
}

// Whether the files are of this boot.
#[tactic(auto, using(crate::proofs::Left::rises))]
fn is_of_this_boot<F: RawFiles>(below: &mut F, alloc: Global) -> Result<bool, DiskFault>
    ensures value { IfOk result (λ is. IfSome (F.files below.old) (λ files. is ≡ is_same_boot F.boot (file_at files boot_file))) }
    ensures same { F.files below.new ≡ F.files below.old }
    ensures rising { F.faults below.old ≤ F.faults below.new }
{
    let id = below.boot_id(alloc)?;
    let kept = below.read(alloc, BOOT_FILE)?;
    Ok(is_same(&id, &kept))
}

// Whether the disk goes on with the files that it finds.
#[tactic(auto, using(crate::proofs::Left::rises))]
fn is_kept<F: RawFiles>(below: &mut F, alloc: Global) -> Result<bool, DiskFault>
    ensures value { IfOk result (λ kept. IfSome (F.files below.old) (λ files. kept ≡ spec.is_kept F.boot files)) }
    ensures same { F.files below.new ≡ F.files below.old }
    ensures rising { F.faults below.old ≤ F.faults below.new }
{
    if !has_session(below, alloc)? {
        return Ok(false);
    }
    is_of_this_boot(below, alloc)
}

// Takes a file away, where it is one of the disk.
#[tactic(auto, using(crate::proofs::Left::rises))]
fn remove_inside<F: RawFiles>(below: &mut F, name: &str) -> Result<(), DiskFault>
    ensures ok { OnOk result (WhileTold (IsTaken name.now) (F.files below.old) (F.files below.new)) }
    ensures any { WhileTold (IsTakenOrNot name.now) (F.files below.old) (F.files below.new) }
    ensures rising { F.faults below.old ≤ F.faults below.new }
{
    if is_inside(name) {
        return below.unlink(name);
    }
    Ok(())
}

// Takes away the files of the disk among those that were found.
fn remove_all<F: RawFiles>(below: &mut F, found: &[TextBuf]) -> Result<(), DiskFault>
    requires { IfSome (F.files below.old) (λ files. IsNamesOf files found.now) }
    ensures ok { OnOk result (WhileTold (λ old new. disk_files new ≡ empty) (F.files below.old) (F.files below.new)) }
    ensures kept { WhileTold (λ old new. spec.is_kept F.boot old ≡ false → spec.is_kept F.boot new ≡ false) (F.files below.old) (F.files below.new) }
    ensures rest { WhileTold IsRestKept (F.files below.old) (F.files below.new) }
    ensures rising { F.faults below.old ≤ F.faults below.new }
{
    for name in found {
        remove_inside(below, name.text())?;
    }
    Ok(())
}

// Notes that the files are of this boot. Where the system doesn't tell its id they are of none.
#[tactic(auto, using(crate::proofs::Left::rises))]
fn note_boot<F: RawFiles>(below: &mut F, alloc: Global) -> Result<(), DiskFault>
    ensures others { WhileTold (IsSameBut boot_file) (F.files below.old) (F.files below.new) }
    ensures rising { F.faults below.old ≤ F.faults below.new }
{
    match below.boot_id(alloc)? {
        Some(id) => below.replace(BOOT_FILE, id.bytes()),
        None => below.unlink(BOOT_FILE),
    }
}

/// Whether the disk goes on with the files that were found. Else they are gone: what was removed before the machine was started again,
/// or written again, may be as it was. The new boot is noted after the last of them is gone, so that a process which is killed meanwhile
/// leaves the rest to the next.
pub(crate) fn begin<F: RawFiles>(
    below: &mut F,
    alloc: Global,
    found: &[TextBuf],
) -> Result<bool, DiskFault>
    requires { IfSome (F.files below.old) (λ files. IsNamesOf files found.now) }
    ensures ok { OnOk result (WhileTold (λ old new. disk_files new ≡ files_begun F.boot old) (F.files below.old) (F.files below.new)) }
    ensures kept { IfOk result (λ kept. WhileTold (λ old new. disk_files new ≡ (if kept then disk_files old else empty)) (F.files below.old) (F.files below.new)) }
    ensures err { OnErr result (WhileTold (λ old new. files_begun F.boot new ≡ files_begun F.boot old) (F.files below.old) (F.files below.new)) }
    ensures rest { WhileTold IsRestKept (F.files below.old) (F.files below.new) }
    ensures rising { F.faults below.old ≤ F.faults below.new }
{
    if is_kept(below, alloc)? {
        return Ok(true);
    }
    remove_all(below, found)?;
    note_boot(below, alloc)?;
    Ok(false)
}

// One that can't be taken away is no file of the disk either. It stands in the way of its file.
fn remove_left<F: RawFiles>(below: &mut F, name: &str)
    ensures left { WhileTold (IsLeftOrNot name.now) (F.files below.old) (F.files below.new) }
    ensures gone { HasNoFault (F.faults below.old) (F.faults below.new) → is_left name.now ≡ true → IsGone name.now (F.files below.old) (F.files below.new) }
    ensures rising { F.faults below.old ≤ F.faults below.new }
{
    if is_left(name) {
        let _ = below.unlink(name);
    }
}

/// Takes away the files beside others that a killed process left, where that may be done.
pub(crate) fn take_left<F: RawFiles>(below: &mut F, found: &[TextBuf])
    ensures left { WhileTold IsLeftTaken (F.files below.old) (F.files below.new) }
    ensures gone { HasNoFault (F.faults below.old) (F.faults below.new) → IfSome (F.files below.new) (IsLeftGone found.now) }
    ensures rising { F.faults below.old ≤ F.faults below.new }
{
    for name in found {
        remove_left(below, name.text());
    }
}

// Adds a name, where it may be one of a file of the disk.
fn add_inside(names: &mut Names<()>, name: &str) -> Result<(), DiskFault>
    ensures { OnOk result (names.new ≡ (if spec_names.is_inside name.now then insert names.old name.now tt else names.old)) }
{
    if !is_inside(name) {
        return Ok(());
    }
    if !is_name(name) {
        return Err(DiskFault::Failed);
    }
    Ok(names.insert(name, ())?)
}

/// The names among those that were found that may be those of files of the disk.
pub(crate) fn names_inside(alloc: Global, found: &[TextBuf]) -> Result<Names<()>, DiskFault>
    ensures { IfOk result (IsNamesOfDisk found.now) }
{
    let mut names = Names::new(alloc);
    for name in found {
        add_inside(&mut names, name.text())?;
    }
    Ok(names)
}

/// Whether the disk has a file.
#[tactic(auto, using(crate::proofs::Left::rises))]
pub(crate) fn has_file<F: RawFiles>(
    below: &mut F,
    alloc: Global,
    name: &str,
) -> Result<bool, DiskFault>
    ensures value { IfOk result (λ has. IfSome (F.files below.old) (λ files. has ≡ contains_key (disk_files files) name.now)) }
    ensures same { F.files below.new ≡ F.files below.old }
    ensures rising { F.faults below.old ≤ F.faults below.new }
{
    if !is_inside(name) {
        return Ok(false);
    }
    Ok(below.read(alloc, name)?.is_some())
}
