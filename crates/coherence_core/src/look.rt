//! What a look at a page goes by.
ghost use Rattle.std.specs.Prelude.{◌≡◌, Some, not};
ghost use Rattle.coherence_core.specs.Asking.{is_barred};

use crate::asking::covers_key;
use crate::pending::Pending;
use any_config::Farm;
use cover_rules::PageKey;

/// A look at a page that may be kept.
#[derive(Clone, Copy, Drop)]
pub struct Look<'a> {
    pub farm: &'a Farm,
    /// The unfinished flushes, of which none may cover what is noted.
    pub queue: &'a Vec<Pending>,
    pub key: &'a PageKey,
    /// .stat files outdate the page.
    pub auto: bool,
}

// Whether what is read of the page may be noted. It asks each unfinished flush, so it is asked where something was read that isn't noted, and
// never for what is.
pub(crate) fn may_be_noted(look: &Look) -> bool
    ensures { result ≡ not (is_barred look.now.farm.now.level look.now.auto (Some look.now.key.now) look.now.queue.now.items) }
{
    !is_covered(look)
}

// Whether an unfinished flush covers the page.
fn is_covered(look: &Look) -> bool
    ensures { result ≡ is_barred look.now.farm.now.level look.now.auto (Some look.now.key.now) look.now.queue.now.items }
{
    let level = look.farm.level;
    let auto = look.auto;
    let key = look.key;
    look.queue.iter().any(|flush| covers_key(level, auto, flush.purge.invalidation(), key))
}
