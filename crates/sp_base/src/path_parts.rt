//! A path's text without its first slash, and paths where there is one: of a text, of a child, below another.
ghost use Rattle.std.specs.Prelude.{◌≡◌, ◌∷◌, ◌++◌, [], IfNone, IfOk, IfSome};
ghost use Rattle.sp_base.specs.Paths.{path_in, path_or_none, pieces};

use crate::segments::{after_slash, seg_ok};
use crate::{MOST_SEGMENTS, Mem, NoMemory, Path, PathFault};
use std::alloc::Global;

impl Path {
    /// The text without its first slash: the segments with slashes between them. The root has none.
    pub fn relative(&self) -> Option<&str>
        ensures some { IfSome result (λ rest. pieces rest.now ≡ self.now) }
        ensures none { IfNone result (self.now ≡ []) }
    {
        after_slash(self.spelling())
    }

    /// The path that a text spells, where it spells one.
    pub fn read_or_none(alloc: Global, text: &str) -> Mem<Option<Path>>
        ensures { IfOk result (λ o. o ≡ path_in text.now) }
    {
        match Path::read(alloc, text) {
            Ok(path) => Ok(Some(path)),
            Err(fault) => match fault {
                PathFault::NoMemory => Err(NoMemory),
                _ => Ok(None),
            },
        }
    }

    /// The path with one segment more, where that is a path: where the name may be a segment and there are fewer than
    /// `MOST_SEGMENTS`.
    pub fn child_or_none(&self, alloc: Global, name: &str) -> Mem<Option<Path>>
        ensures { IfOk result (λ o. o ≡ path_or_none (self.now ++ name.now ∷ [])) }
    {
        if !seg_ok(name) || self.depth() >= MOST_SEGMENTS {
            return Ok(None);
        }
        match self.child(alloc, name) {
            Ok(child) => Ok(Some(child)),
            Err(PathFault::NoMemory) => Err(NoMemory),
            Err(_) => unreachable!(),
        }
    }

    /// The segments of a further path after these, where there are at most `MOST_SEGMENTS` in all.
    pub fn join_or_none(&self, alloc: Global, rest: &Path) -> Mem<Option<Path>>
        ensures { IfOk result (λ o. o ≡ path_or_none (self.now ++ rest.now)) }
    {
        match self.join(alloc, rest) {
            Ok(path) => Ok(Some(path)),
            Err(fault) => match fault {
                PathFault::NoMemory => Err(NoMemory),
                _ => Ok(None),
            },
        }
    }
}
