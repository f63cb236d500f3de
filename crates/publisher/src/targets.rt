// The target of a POST.
ghost use Rattle.std.specs.Prelude.{◌≡◌, IfOk};
ghost use Rattle.publisher.specs.Posting as spec;

use crate::parts::parts_of;
use resource_tree::Tree;
use sp_base::{Mem, Path};
use std::alloc::Global;

/// The path that a POST acts at.
#[derive(Drop)]
pub(crate) struct PostTarget {
    pub(crate) path: Path,
    /// A new node is wished below the path.
    pub(crate) star: bool,
}

fn ends_in_star(text: &str) -> bool
    ensures { result ≡ spec.ends_in_star text.now }
{
    text.as_bytes().ends_with(b"/*")
}

// The path of the resource that a text names, else the path that it spells.
fn named_path(alloc: Global, tree: &Tree, text: &str) -> Mem<Option<Path>>
    ensures { IfOk result (λ o. o ≡ spec.named_path tree.now text.now) }
{
    match parts_of(alloc, tree, text)? {
        Some(parts) => Ok(Some(parts.path)),
        None => Path::read_or_none(alloc, text),
    }
}

// A new node below the path before the last segment of a text.
fn starred(alloc: Global, text: &str) -> Mem<Option<PostTarget>>
    ensures { IfOk result (λ o. o ≡ spec.star_target text.now) }
{
    match Path::read_or_none(alloc, text)? {
        Some(path) => Ok(Some(PostTarget {
            path: path.parent(alloc)?,
            star: true,
        })),
        None => Ok(None),
    }
}

/// The target of a text; `slash` says that a slash at its end was dropped.
pub(crate) fn target_of(
    alloc: Global,
    tree: &Tree,
    text: &str,
    slash: bool,
) -> Mem<Option<PostTarget>>
    ensures { IfOk result (λ o. o ≡ spec.post_target tree.now text.now slash) }
{
    if ends_in_star(text) {
        return starred(alloc, text);
    }
    match named_path(alloc, tree, text)? {
        Some(path) => Ok(Some(PostTarget { path, star: slash })),
        None => Ok(None),
    }
}
