//! How far a walk over the names of files is.
ghost use Rattle.std.specs.Prelude.{◌≡◌, ◌<◌, ◌≤◌, [], IfOk, length};
ghost use Rattle.sp_base.specs.Limits.{greatest_u64};
ghost use Rattle.invalidation.specs.Slices.{start_place};
ghost use Rattle.invalidation.specs.Walks.{IsPlaceAfter};

use sp_base::{Mem, NameList, TextBuf};
use std::alloc::Global;

/// How far a walk through the names of files is that begin with one of several prefixes: through with the prefixes before this one, and
/// with the names that begin with this one up to `last`.
#[derive(Drop)]
pub struct WalkPlace {
    pub prefix: usize,
    pub last: TextBuf,
}

impl WalkPlace {
    pub(crate) fn start(alloc: Global) -> Mem<WalkPlace>
        ensures { IfOk result (λ place. place ≡ start_place) }
    {
        WalkPlace::at_prefix(alloc, 0)
    }

    fn at_prefix(alloc: Global, prefix: usize) -> Mem<WalkPlace>
        ensures prefix { IfOk result (λ place. place.prefix ≡ prefix) }
        ensures last { IfOk result (λ place. place.last ≡ []) }
    {
        let last = TextBuf::of(alloc, "")?;
        Ok(WalkPlace { prefix, last })
    }

    /// The place after these names, which were listed at this place, and of which at most so many were asked for.
    pub(crate) fn after(&self, alloc: Global, names: &NameList, most: usize) -> Mem<WalkPlace>
        requires most { (0 < most) × (length names.now ≤ most) }
        requires prefix { self.now.prefix < greatest_u64 }
        ensures { IfOk result (IsPlaceAfter self.now names.now most) }
    {
        let n = names.len();
        if n < most {
            return WalkPlace::at_prefix(alloc, self.prefix + 1);
        }
        match names.get(n - 1) {
            Some(last) => Ok(WalkPlace {
                prefix: self.prefix,
                last: last.duplicate(alloc)?,
            }),
            None => unreachable!(),
        }
    }
}
