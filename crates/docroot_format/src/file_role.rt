//! What a file of the docroot is, by its name.
ghost use Rattle.std.specs.Prelude.{◌≡◌};
ghost use Rattle.sp_base.specs.Paths.{name_of, pieces};
ghost use Rattle.docroot_format.specs.Names as spec;

use sp_outside::has_segments;

// What follows the last slash of a name, or the name where it has none.
fn last_piece(name: &str) -> &str
    ensures { result.now ≡ name_of (pieces name.now) }
{
    match name.rfind('/') {
        Some(at) => &name[at + 1..],
        None => name,
    }
}

/// Whether a name is that of a page file, of a body or a head.
pub fn is_page_file(name: &str) -> bool
    ensures { result ≡ spec.is_page_file name.now }
{
    has_segments(name) && !last_piece(name).starts_with('.')
}

/// Whether a name is that of a .stat file.
pub fn is_stat_file(name: &str) -> bool
    ensures { result ≡ spec.is_stat_file name.now }
{
    has_segments(name) && last_piece(name) == ".stat"
}
