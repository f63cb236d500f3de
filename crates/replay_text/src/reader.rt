//! Reads a scenario by its grammar.
ghost use Rattle.std.specs.Prelude.{[], ◌≡◌, ◌≢◌, ◌+◌, ◌≤◌, ◌<◌, ◌^◌, IfOk, IfErr, MatchResult, true, false, length, take};
ghost use Rattle.replay_text.specs.EventLines.{line_of, IsEventLine};
ghost use Rattle.replay_text.specs.declared.event_line.EventLine as models;
ghost use Rattle.replay_text.specs.Scenario.{SpellsScenario, IsScenario, ReadsScenario, longest_scenario};
ghost use Rattle.replay_text.specs.Languages.{RefusesWithin};
ghost use Rattle.replay_text.specs.Reading.{Refuses, SpellsActs, SpellsBody, SpellsTail, SpellsFarm, IsContentBody, IsTail, BlockThen, EndsBlock, EndsNoBlock, IfLine, fault_further, Acts};
ghost use Rattle.replay_text.specs.declared.scenario.ScenarioFault.TheVariants.{Line};

use crate::event_lines::read_event_line;
use crate::lines::{after_line, count_newlines, first_line, same};
use crate::scenario::{Scenario, ScenarioFault};
use sp_base::{ByteBuf, Mem};
use std::alloc::Global;

/// The most bytes that a scenario has.
pub const LONGEST_SCENARIO: usize = 67_108_864;

// Where the acts end, if the line `end` after them is the last one.
fn ended(at: usize, after: &[u8], before: u64) -> Result<usize, ScenarioFault>
    requires { before + 1 < 2 ^ 64 }
    ensures { MatchResult result (λ end. (end ≡ at) × (after.now ≡ [])) (λ e. (e ≡ Line (before + 1)) × (after.now ≢ [])) }
{
    if after.is_empty() {
        Ok(at)
    } else {
        Err(ScenarioFault::Line(before + 1))
    }
}

// Whether a line is that of an act.
fn is_act(alloc: Global, line: &[u8]) -> Mem<bool>
    ensures yes { IfOk result (λ is. is ≡ true → (act : models.EventLine) × IsEventLine act × (line.now ≡ line_of act)) }
    ensures no { IfOk result (λ is. is ≡ false → (act : models.EventLine) → IsEventLine act → line.now ≢ line_of act) }
{
    match read_event_line(alloc, line)? {
        Some(_) => Ok(true),
        None => Ok(false),
    }
}

// Where the acts end. Each is read, and kept as its line alone: what it asks for takes more.
fn acts_end(alloc: Global, text: &[u8]) -> Result<usize, ScenarioFault>
    ensures ok { IfOk result (λ at. (at ≤ length text.now) × SpellsActs text.now (take at text.now)) }
    ensures err { IfErr result (Refuses Acts text.now) }
{
    let mut rest = text;
    let mut before = 0;
    while let Some((line, after)) = first_line(rest) {
        if same(line, b"end") {
            return ended(text.len() - rest.len(), after, before);
        }
        let known = is_act(alloc, line)?;
        if !known {
            return Err(ScenarioFault::Line(before));
        }
        rest = after;
        before += 1;
    }
    Err(ScenarioFault::Line(before))
}

// Reads acts up to the end.
fn read_acts(alloc: Global, text: &[u8]) -> Result<ByteBuf, ScenarioFault>
    ensures ok { IfOk result (λ bytes. SpellsActs text.now bytes) }
    ensures err { IfErr result (Refuses Acts text.now) }
{
    match acts_end(alloc, text) {
        Ok(at) => Ok(ByteBuf::of(alloc, &text[..at])?),
        Err(fault) => Err(fault),
    }
}

// Where a block ends, and how many lines it has; or how many whole lines the text has, none of which ends it.
fn block_end(text: &[u8]) -> Result<(usize, u64), u64>
    ensures ok { IfOk result (λ p. EndsBlock text.now p.0 p.1) }
    ensures err { IfErr result (λ n. EndsNoBlock text.now n) }
{
    let mut rest = text;
    let mut count = 0;
    while let Some((line, after)) = first_line(rest) {
        if same(line, b".") {
            return Ok((text.len() - rest.len(), count));
        }
        rest = after;
        count += 1;
    }
    Err(count)
}

// The same fault, lines further down.
fn later(fault: ScenarioFault, lines: u64) -> ScenarioFault
    requires { IfLine fault (λ n. n + lines < 2 ^ 64) }
    ensures { result ≡ fault_further fault lines }
{
    match fault {
        ScenarioFault::Line(n) => ScenarioFault::Line(n + lines),
        ScenarioFault::NoMemory => ScenarioFault::NoMemory,
    }
}

// Reads a farm up to its dot, and the acts after it.
fn read_farm(alloc: Global, text: &[u8]) -> Result<(ByteBuf, ByteBuf), ScenarioFault>
    ensures ok { IfOk result (λ p. SpellsFarm text.now p.0 p.1) }
    ensures err { IfErr result (Refuses (BlockThen Acts) text.now) }
{
    let (at, count) = match block_end(text) {
        Ok(end) => end,
        Err(n) => return Err(ScenarioFault::Line(n)),
    };
    let farm = ByteBuf::of(alloc, &text[..at])?;
    match read_acts(alloc, &text[at + 2..]) {
        Ok(acts) => Ok((farm, acts)),
        Err(fault) => Err(later(fault, count + 1)),
    }
}

// Reads the part after the content's dot: the farm, where there is one, and the acts.
fn read_tail(alloc: Global, text: &[u8]) -> Result<(Option<ByteBuf>, ByteBuf), ScenarioFault>
    ensures ok { IfOk result (λ p. SpellsTail text.now p.0 p.1) }
    ensures err { IfErr result (Refuses IsTail text.now) }
{
    let Some(block) = after_line(text, b"farm") else {
        return match read_acts(alloc, text) {
            Ok(acts) => Ok((None, acts)),
            Err(fault) => Err(fault),
        };
    };
    match read_farm(alloc, block) {
        Ok((farm, acts)) => Ok((Some(farm), acts)),
        Err(fault) => Err(later(fault, 1)),
    }
}

// Reads the part after the head.
fn read_body(alloc: Global, text: &[u8]) -> Result<Scenario, ScenarioFault>
    ensures ok { IfOk result (λ s. SpellsBody text.now s) }
    ensures err { IfErr result (Refuses IsContentBody text.now) }
{
    let (at, count) = match block_end(text) {
        Ok(end) => end,
        Err(n) => return Err(ScenarioFault::Line(n)),
    };
    let content = ByteBuf::of(alloc, &text[..at])?;
    match read_tail(alloc, &text[at + 2..]) {
        Ok((farm, acts)) => Ok(Scenario {
            content,
            farm,
            acts,
        }),
        Err(fault) => Err(later(fault, count + 1)),
    }
}

// The scenario that a text of any length spells, or the line at which it is refused.
fn read_whole(alloc: Global, text: &[u8]) -> Result<Scenario, ScenarioFault>
    ensures ok { IfOk result (λ s. SpellsScenario text.now s) }
    ensures err { IfErr result (Refuses IsScenario text.now) }
{
    let Some(first) = after_line(text, b"scenario 1") else {
        return Err(ScenarioFault::Line(0));
    };
    let Some(body) = after_line(first, b"content") else {
        return Err(ScenarioFault::Line(1));
    };
    match read_body(alloc, body) {
        Ok(scenario) => Ok(scenario),
        Err(fault) => Err(later(fault, 2)),
    }
}

// The same where a scenario has at most `limit` bytes. The text is all of them, or more than these.
fn read_limited(alloc: Global, text: &[u8], limit: usize) -> Result<Scenario, ScenarioFault>
    ensures ok { IfOk result (λ s. SpellsScenario text.now s × (length text.now ≤ limit)) }
    ensures err { IfErr result (RefusesWithin limit IsScenario text.now) }
{
    if text.len() <= limit {
        return read_whole(alloc, text);
    }
    let allowed = &text[..limit];
    let Err(fault) = read_whole(alloc, allowed) else {
        return Err(ScenarioFault::Line(count_newlines(allowed)));
    };
    Err(fault)
}

/// The scenario that bytes spell, or the line at which they are refused. The bytes are all that there are, or at least one more than a scenario may have.
pub fn read_scenario(alloc: Global, bytes: &[u8]) -> Result<Scenario, ScenarioFault>
    ensures ok { IfOk result (λ s. ReadsScenario bytes.now s) }
    ensures err { IfErr result (RefusesWithin longest_scenario IsScenario bytes.now) }
{
    read_limited(alloc, bytes, LONGEST_SCENARIO)
}
