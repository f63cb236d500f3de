//! The acts of a scenario, which are kept as their lines.
ghost use Rattle.std.specs.Prelude.{◌≡◌, ◌++◌, ◌∷◌, [], ℕ, List, IfOk, IfSome, IfNone};
ghost use Rattle.replay_text.specs.EventLines.{line_of, IsEventLine};
ghost use Rattle.replay_text.specs.Scenario.{IsActs, HasNoAct, TellsFirst};
ghost use Rattle.replay_text.specs.declared.event_line.EventLine as models;

use crate::event_line::EventLine;
use crate::event_lines::read_event_line;
use crate::lines::first_line;
use sp_base::Mem;
use std::alloc::Global;

/// The act whose line stands first, and the bytes after that line.
pub fn first_act(alloc: Global, lines: &[u8]) -> Mem<Option<(EventLine, &[u8])>>
    ensures some { IfOk result (λ o. IfSome o (λ p. IsEventLine p.0 × (lines.now ≡ line_of p.0 ++ 10 ∷ p.1.now))) }
    ensures none { IfOk result (λ o. IfNone o (HasNoAct lines.now)) }
{
    let Some((line, rest)) = first_line(lines) else {
        return Ok(None);
    };
    let Some(act) = read_event_line(alloc, line)? else {
        return Ok(None);
    };
    Ok(Some((act, rest)))
}

/// Lines tell their acts: what stands first is the line of the first act, and the lines after it are those of the others.
pub fn acts_are_told_by_their_lines()
    ensures first { (lines rest : List ℕ) (acts : List models.EventLine) (act : models.EventLine) → TellsFirst lines rest acts act }
    ensures none { (lines : List ℕ) (acts : List models.EventLine) → IsActs lines acts → HasNoAct lines → acts ≡ [] }
{}
