//! What follows the first segments of a path, after another.
ghost use Rattle.std.specs.Prelude.{◌≡◌, ◌++◌, [], IfNone, IfOk, IfSome, drop};
ghost use Rattle.sp_base.specs.Paths.{path_or_none, pieces};

use crate::laws::a_path_and_its_text;
use crate::{Mem, NoMemory, Path, PathFault};
use std::alloc::Global;

// What follows the first `n` pieces of a text.
fn after_pieces(text: &str, n: usize) -> Option<&str>
    ensures some { IfSome result (λ rest. pieces rest.now ≡ drop n (pieces text.now)) }
    ensures none { IfNone result (drop n (pieces text.now) ≡ []) }
{
    let mut rest = text;
    for passed in 0..n {
        let Some(at) = rest.find('/') else {
            return None;
        };
        rest = &rest[at + 1..];
    }
    Some(rest)
}

// What follows the first `n` segments of a path.
fn after_segments(path: &Path, n: usize) -> Option<&str>
    ensures some { IfSome result (λ rest. pieces rest.now ≡ drop n path.now) }
    ensures none { IfNone result (drop n path.now ≡ []) }
{
    match path.relative() {
        Some(text) => after_pieces(text, n),
        None => None,
    }
}

impl Path {
    /// What follows the first `n` segments of a further path after these, where there are at most `MOST_SEGMENTS` in all.
    pub fn join_rest_or_none(&self, alloc: Global, path: &Path, n: usize) -> Mem<Option<Path>>
        ensures { IfOk result (λ o. o ≡ path_or_none (self.now ++ drop n path.now)) }
    {
        a_path_and_its_text();
        // `depth` says that the segments make a path.
        let _ = self.depth();
        let Some(rest) = after_segments(path, n) else {
            return Ok(Some(self.duplicate(alloc)?));
        };
        match self.child(alloc, rest) {
            Ok(whole) => {
                let _ = whole.depth();
                Ok(Some(whole))
            }
            Err(fault) => match fault {
                PathFault::NoMemory => Err(NoMemory),
                _ => Ok(None),
            },
        }
    }
}
