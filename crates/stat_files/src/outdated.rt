//! Which pages a .stat file outdates.
ghost use Rattle.std.specs.Prelude.{◌≡◌};
ghost use Rattle.stat_files.specs.Outdated as spec;

use cover_rules::Stamp;

// Stamps are ordered by the session, then by the count.
fn is_older(stamp: Stamp, other: Stamp) -> bool
    ensures { result ≡ spec.is_older stamp other }
{
    stamp < other
}

/// Whether the stamp of a page's .stat file, where there is one, outdates the page: it isn't older than the page's own. The .stat file is
/// that of as many first segments of the page's folder as `stat_depth` of `cover_rules` says, and is asked only for a page that .stat files outdate.
pub fn outdates_page(stat: Option<Stamp>, page: Stamp) -> bool
    ensures { result ≡ spec.outdates_page stat page }
{
    match stat {
        Some(stat) => !is_older(stat, page),
        None => false,
    }
}
