//! Relative paths: how they go from a node.
ghost use Rattle.std.specs.Prelude.{◌≡◌, ◌<◌, ◌≤◌, ◌+◌, ◌^◌, ◌∷◌, ◌++◌, [], IfOk, IfSome, length, map, option_copied};
ghost use Rattle.sp_base.specs.Paths.{pieces};
ghost use Rattle.post_plan.specs.RelativePaths as spec;

use sp_base::{Mem, seg_ok};
use std::alloc::Global;
use std::marker::Model;

/// Up from a node by a number of segments, then down. The segments are lent by the text, which may have millions of them.
#[derive(Drop)]
pub struct RelativePath<'a> {
    pub up: usize,
    pub down: Vec<&'a str>,
}

impl<'a> Model for RelativePath<'a> {
    ghost use Rattle.std.specs.Prelude.{map};
    ghost use Rattle.post_plan.specs.RelativePaths.{RelativePath as RelativeModel};

    ghost Value = { RelativeModel };

    ghost view = { λ w. record { up = w.up; down = map (λ s. s.now) w.down.items } };
}

#[tactic(auto, using(crate::proofs::RelativeLemmas::climbs_back))]
fn climbed<'a>(relative: RelativePath<'a>) -> RelativePath<'a>
    requires { relative.up + 1 < 2 ^ 64 }
    ensures { result ≡ spec.relative_parent relative.entry }
{
    let RelativePath { up, mut down } = relative;
    if down.is_empty() {
        return RelativePath { up: up + 1, down };
    }
    down.truncate(down.len() - 1);
    RelativePath { up, down }
}

fn deeper<'a>(relative: RelativePath<'a>, name: &'a str) -> Mem<RelativePath<'a>>
    ensures { IfOk result (λ w. w ≡ record { up = relative.entry.up; down = relative.entry.down ++ name.now ∷ [] }) }
{
    let RelativePath { up, mut down } = relative;
    down.push(name)?;
    Ok(RelativePath { up, down })
}

// The relative path after one piece more, where the piece may stand in a path.
#[tactic(auto, using(crate::proofs::RelativeLemmas::dots_length))]
fn step<'a>(relative: RelativePath<'a>, piece: &'a str) -> Mem<Option<RelativePath<'a>>>
    requires { relative.up + length piece.now < 2 ^ 64 }
    ensures { IfOk result (λ o. o ≡ spec.relative_path_step relative.entry piece.now) }
{
    if piece == "." {
        return Ok(Some(relative));
    }
    if piece == ".." {
        return Ok(Some(climbed(relative)));
    }
    if !seg_ok(piece) {
        return Ok(None);
    }
    Ok(Some(deeper(relative, piece)?))
}

// What stands before the first slash, and what after it.
fn first_piece(text: &str) -> (&str, Option<&str>)
    ensures pieces { pieces text.now ≡ result.0.now ∷ spec.later_pieces (option_copied result.1) }
    ensures within { length result.0.now ≤ length text.now }
    ensures shorter { IfSome result.1 (λ rest. length result.0.now + length rest.now < length text.now) }
{
    match text.split_once('/') {
        Some((piece, rest)) => (piece, Some(rest)),
        None => (text, None),
    }
}

/// How a relative path goes, where all its pieces may stand in a path.
pub fn relative_path_of<'a>(alloc: Global, text: &'a str) -> Mem<Option<RelativePath<'a>>>
    ensures { IfOk result (λ o. o ≡ spec.relative_path_of text.now) }
{
    let mut relative = RelativePath {
        up: 0,
        down: Vec::new(alloc),
    };
    let mut rest = text;
    loop {
        let (piece, later) = first_piece(rest);
        let Some(next) = step(relative, piece)? else {
            return Ok(None);
        };
        relative = next;
        match later {
            Some(text) => rest = text,
            None => return Ok(Some(relative)),
        }
    }
}
