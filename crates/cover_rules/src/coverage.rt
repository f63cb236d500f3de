//! Which pages an invalidation covers.
ghost use Rattle.std.specs.Prelude.{◌≡◌, ◌≤◌, ◌==◌, ◌&&◌, ◌||◌, [], codes, length, nat_eq, not, take};
ghost use Rattle.std.specs.List.{starts_with};
ghost use Rattle.sp_base.specs.Paths.{is_under, parent_of};
ghost use Rattle.sp_base.specs.PathTexts.{text_under};
ghost use Rattle.cover_rules.specs.Coverage as spec;
ghost use Rattle.cover_rules.specs.Walk.{deletes_by_folder};

use crate::walk::{Rest, after};
use crate::{Action, Invalidation, PageKey};
use sp_base::{segments_and_their_spelling, text_under};

/// How .stat files outdate a page: those in the folders down to `level`, where it is a page that they outdate (`auto`).
#[derive(Clone, Copy, Drop)]
pub struct StatRule {
    pub level: usize,
    pub auto: bool,
}

/// Whether an invalidation covers a page: whether it deletes the page, or outdates it by a .stat file.
pub fn covers(rule: StatRule, inv: &Invalidation, key: &PageKey) -> bool
    ensures { result ≡ spec.covers rule.level rule.auto inv.now key.now }
{
    deletes(inv, key) || outdates(rule.level, rule.auto, inv, key)
}

/// How deep the folder is whose .stat file may outdate a page.
pub fn stat_depth(level: usize, key: &PageKey) -> usize
    ensures { result ≡ spec.stat_depth_of level key.now }
{
    level.min(key.folder.depth())
}

fn takes_below(action: Action) -> bool
    ensures { result ≡ spec.takes_below action }
{
    match action {
        Action::Activate => false,
        Action::Deactivate | Action::Delete => true,
    }
}

fn begins_with_dot(text: &[u8]) -> bool
    ensures { result ≡ starts_with nat_eq text.now (codes ".") }
{
    text.starts_with(b".")
}

fn deletes(inv: &Invalidation, key: &PageKey) -> bool
    ensures { result ≡ spec.deletes inv.now key.now }
{
    segments_and_their_spelling();
    let depth = inv.handle.depth();
    // The law speaks of paths, and that the folder is one is a clause of its depth.
    let _folder_depth = key.folder.depth();
    let below = takes_below(inv.action);
    match after(&inv.handle, depth, key) {
        Some(Rest::Folder(rest)) => deletes_in_folder(depth, below, rest),
        Some(Rest::File(rest)) => deletes_in_file(depth, below, rest),
        None => false,
    }
}

// By what is left of the page's folder after the handle.
fn deletes_in_folder(depth: usize, below: bool, rest: &[u8]) -> bool
    ensures { result ≡ deletes_by_folder depth below rest.now }
{
    (depth != 0 && begins_with_dot(rest))
        || (text_under(rest, b"/_jcr_content") || (below && text_under(rest, b"")))
}

// By what is left of the page's file.
fn deletes_in_file(depth: usize, below: bool, rest: &[u8]) -> bool
    ensures { result ≡ (length rest.now == 0 || (not (depth == 0) && starts_with nat_eq rest.now (codes ".") || below && text_under rest.now [])) }
{
    rest.is_empty() || ((depth != 0 && begins_with_dot(rest)) || (below && text_under(rest, b"")))
}

fn outdates(level: usize, auto: bool, inv: &Invalidation, key: &PageKey) -> bool
    ensures { result ≡ spec.outdates level auto inv.now key.now }
{
    !inv.only && (auto && outdates_folder(stat_depth(level, key), inv, key))
}

fn outdates_folder(depth: usize, inv: &Invalidation, key: &PageKey) -> bool
    requires { depth ≤ length key.now.folder }
    ensures { result ≡ is_under (parent_of (spec.handle_of inv.now)) (take depth key.now.folder) }
{
    segments_and_their_spelling();
    // The law speaks of paths, and that the folder is one is a clause of its depth.
    let _folder_depth = key.folder.depth();
    if depth > inv.handle.depth().saturating_sub(1) {
        return false;
    }
    match after(&inv.handle, depth, key) {
        Some(Rest::Folder(rest)) => text_under(rest, b""),
        Some(Rest::File(_)) => false,
        None => false,
    }
}
