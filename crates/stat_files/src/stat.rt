//! .stat files, written and read.
ghost use Rattle.std.specs.Prelude.{◌≡◌, IfOk, IfErr, IfSome, OnOk, IsTrue};
ghost use Rattle.sp_outside.specs.Calls.{Get, Put};
ghost use Rattle.sp_base.specs.Paths.{mangled_segs};
ghost use Rattle.docroot_format.specs.Faults.{HasFileCause, IsLeftByFault, IsOneCall};
ghost use Rattle.docroot_format.specs.Names.{have_names};
ghost use Rattle.docroot_format.specs.Names as name;
ghost use Rattle.docroot_format.specs.Texts as text;
ghost use Rattle.stat_files.specs.Stamps.{stamp_at, stamp_in, told_with_stamp};

use cover_rules::Stamp;
use docroot_format::{FileFault, stat_in, stat_name, stat_text};
use sp_base::Path;
use sp_outside::Disk;
use std::alloc::Global;

/// Gives a folder a stamp. Each of its segments, mangled, has a file name of at most 200 bytes.
pub fn touch<D: Disk>(
    alloc: Global,
    disk: &mut D,
    folder: &Path,
    stamp: Stamp,
) -> Result<(), FileFault>
    requires { IsTrue (have_names (mangled_segs folder.now)) }
    ensures ok { OnOk result (D.files disk.new ≡ told_with_stamp (D.files disk.old) folder.now stamp) }
    ensures err { IfErr result (IsLeftByFault (D.files disk.old) (told_with_stamp (D.files disk.old) folder.now stamp) (D.files disk.new)) }
    ensures cause { HasFileCause (D.faults disk.old) (D.faults disk.new) result }

    // This call of the disk is made, and no other; or none, where memory runs out before it.
    ensures made { IsOneCall (D.calls disk.old) (D.calls disk.new) (Put (name.stat_name folder.now) (text.stat_text stamp)) result }
{
    let name = stat_name(alloc, folder)?;
    let text = stat_text(stamp);
    match disk.put(name.text(), text.as_str().as_bytes()) {
        Ok(()) => Ok(()),
        Err(fault) => Err(FileFault::from(fault)),
    }
}

fn stamp_in(bytes: &[u8]) -> Stamp
    ensures { result ≡ stamp_in bytes.now }
{
    match stat_in(bytes) {
        Some(stamp) => stamp,
        None => Stamp {
            epoch: u64::MAX,
            count: u64::MAX,
        },
    }
}

/// The stamp of a folder, or None where it has no .stat file. A .stat file of another form has the greatest stamp, so that it outdates
/// every page.
pub fn stamp_of<D: Disk>(
    alloc: Global,
    disk: &mut D,
    folder: &Path,
) -> Result<Option<Stamp>, FileFault>
    requires { IsTrue (have_names (mangled_segs folder.now)) }
    ensures value { IfOk result (λ stamp. IfSome (D.files disk.old) (λ files. stamp ≡ stamp_at files folder.now)) }
    ensures same { D.files disk.new ≡ D.files disk.old }
    ensures cause { HasFileCause (D.faults disk.old) (D.faults disk.new) result }

    // This call of the disk is made, and no other; or none, where memory runs out before it.
    ensures made { IsOneCall (D.calls disk.old) (D.calls disk.new) (Get (name.stat_name folder.now)) result }
{
    let name = stat_name(alloc, folder)?;
    match disk.get(alloc, name.text()) {
        Ok(Some(bytes)) => Ok(Some(stamp_in(bytes.bytes()))),
        Ok(None) => Ok(None),
        Err(fault) => Err(FileFault::from(fault)),
    }
}
