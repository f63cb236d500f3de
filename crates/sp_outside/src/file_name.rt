//! Which names may have a file below a folder.
ghost use Rattle.std.specs.Prelude.{◌≡◌, IsTrue};
ghost use Rattle.sp_outside.specs.FileNames as spec;
ghost use Rattle.sp_outside.specs.Files.{IsName};

use crate::LONGEST_FILE_NAME;

/// The ending of a file that is written beside another, which it then replaces.
pub(crate) const BESIDE: &str = "%t";

/// The ending of the files that a folder keeps for itself. Since no name of a file ends as those beside do, no file beside another ends so.
const OWN: &str = "%t%t";

fn is_beside(name: &str) -> bool
    ensures { result ≡ spec.is_beside name.now }
{
    name.ends_with(BESIDE)
}

fn is_own(name: &str) -> bool
    ensures { result ≡ spec.is_own name.now }
{
    name.ends_with(OWN)
}

fn is_inner(piece: &str) -> bool
    ensures { result ≡ spec.is_inner piece.now }
{
    !piece.is_empty() && !(piece == "." || piece == "..")
}

/// Whether no piece of a name between slashes is empty, `.` or `..`.
pub fn has_segments(name: &str) -> bool
    ensures { result ≡ spec.has_segments name.now }
{
    name.split('/').all(|piece| is_inner(piece))
}

fn has_nul(name: &str) -> bool
    ensures { result ≡ spec.has_nul name.now }
{
    name.as_bytes().iter().any(|b| *b == 0)
}

/// Whether a name leads to a place below the folder: nowhere out of it, and it has no NUL.
fn is_below(name: &str) -> bool
    ensures { result ≡ spec.is_below name.now }
{
    !has_nul(name) && has_segments(name)
}

/// Whether a name may have a file of the disk: it leads to a place below the folder, and isn't that of a file beside another.
pub(crate) fn is_inside(name: &str) -> bool
    ensures { result ≡ spec.is_inside name.now }
{
    !is_beside(name) && is_below(name)
}

/// Whether a name is that of a file beside one of the disk, which a process left that was killed.
pub(crate) fn is_left(name: &str) -> bool
    ensures { result ≡ spec.is_left name.now }
{
    is_beside(name) && (!is_own(name) && is_below(name))
}

/// Whether a name is as long as that of a file may be.
pub(crate) fn is_name(name: &str) -> bool
    ensures { IsTrue result → IsName name.now }
{
    !name.is_empty() && name.len() <= LONGEST_FILE_NAME
}
