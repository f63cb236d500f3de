//! Runs: parts of a glob without a star.
ghost use Rattle.std.specs.Prelude.{◌≡◌, ◌≤◌, ◌∷◌, ◌++◌, Some, None, MatchOption, length};
ghost use Rattle.std.specs.Str.{chars};
ghost use Rattle.std.specs.List.{position, position_or_len};
ghost use Rattle.glob_rules.specs.Globs.{is_match, is_star};
ghost use Rattle.glob_rules.specs.Runs as spec;
ghost use Rattle.glob_rules.specs.declared.piece.GlobPiece.TheVariants.{Star};

use crate::chars::{first_char, is_empty};
use crate::piece::GlobPiece;

fn first_star(pieces: &[GlobPiece]) -> Option<usize>
    ensures { result ≡ position is_star pieces.now }
{
    pieces.iter().position(|piece| piece.is_star())
}

fn star_index(pieces: &[GlobPiece]) -> usize
    ensures value { result ≡ position_or_len is_star pieces.now }
    ensures within { result ≤ length pieces.now }
{
    match first_star(pieces) {
        Some(at) => at,
        None => pieces.len(),
    }
}

/// The pieces before the first star, and the star with those after it.
#[tactic(auto, using(crate::proofs::RunLemmas::run_before, crate::proofs::RunLemmas::star_after))]
pub fn split_at_star(pieces: &[GlobPiece]) -> (&[GlobPiece], &[GlobPiece])
    ensures parts { pieces.now ≡ result.0.now ++ result.1.now }
    ensures run { spec.IsRun result.0.now }
    ensures rest { spec.IsAfterRun result.1.now }
{
    pieces.split_at(star_index(pieces))
}

/// The text after the characters that a run stands for.
pub fn after_run<'a>(run: &[GlobPiece], text: &'a str) -> Option<&'a str>
    ensures { MatchOption result (spec.after_run run.now (chars text.now) ≡ None) (λ rest. spec.after_run run.now (chars text.now) ≡ Some (chars rest.now)) }
{
    let mut rest = text;
    for piece in run {
        let Some((c, later)) = first_char(rest) else {
            return None;
        };
        if !piece.stands_for(c) {
            return None;
        }
        rest = later;
    }
    Some(rest)
}

/// The text after the first place at which a run stands for what is there.
pub fn after_first_run<'a>(run: &[GlobPiece], text: &'a str) -> Option<&'a str>
    ensures { MatchOption result (spec.HasNoRun run.now (chars text.now)) (λ rest. spec.after_first_run run.now (chars text.now) ≡ Some (chars rest.now)) }
{
    let mut rest = text;
    loop {
        if let Some(after) = after_run(run, rest) {
            return Some(after);
        }
        let Some((_, later)) = first_char(rest) else {
            return None;
        };
        rest = later;
    }
}

/// Whether a run stands for all characters of a text.
pub fn is_whole(run: &[GlobPiece], text: &str) -> bool
    requires { spec.IsRun run.now }
    ensures { result ≡ is_match run.now (chars text.now) }
{
    match after_run(run, text) {
        Some(rest) => is_empty(rest),
        None => false,
    }
}

/// Whether a run stands for the last characters of a text.
pub fn is_at_end(run: &[GlobPiece], text: &str) -> bool
    requires { spec.IsRun run.now }
    ensures { result ≡ is_match (Star ∷ run.now) (chars text.now) }
{
    let mut rest = text;
    loop {
        if is_whole(run, rest) {
            return true;
        }
        let Some((_, later)) = first_char(rest) else {
            return false;
        };
        rest = later;
    }
}
