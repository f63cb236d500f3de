//! Runs a generated scenario, and counts what happens.
ghost use Rattle.std.specs.Prelude.{◌≡◌, ◌≢◌, ◌+◌, ◌≤◌, ◌<◌, ◌^◌, [], IfOk, OnOk, Ok, length};
ghost use Rattle.replay_text.specs.Scenario.{ReadsScenario};
ghost use Rattle.soak_scenarios.specs.Soaks.{generated_text};
ghost use Rattle.sling_dispatch.specs.InnerEndings.{AreActLines};
ghost use Rattle.sling_dispatch.specs.InnerServing.{CountsAll, CountsOn, IsSummaryIn, IsSummaryOf};
ghost use Rattle.sling_dispatch.specs.Farms as spec;

use crate::farms::{farm_in, farm_text};
use crate::session::Session;
use crate::summary::Counts;
use any_config::Farm;
use content_json::read_tree;
use publisher::Publisher;
use replay_text::{Scenario, acts_are_told_by_their_lines, read_scenario};
use run_laws::events_extend;
use soak_scenarios::generated;
use sp_base::{ByteBuf, Mem, NoMemory};
use std::alloc::Global;
use std::hash::RandomState;

/// The summary of the scenario that is made from a number.
pub fn summary_of(alloc: Global, seeds: RandomState, number: u32) -> Mem<Vec<u8>>
    ensures { IfOk result (λ text. IsSummaryOf number text.items) }
{
    let scenario = generated_scenario(alloc, number)?;
    let text = summary_in(alloc, seeds, scenario)?;
    Ok(text)
}

// The scenario that is made from a number. Its text is given up.
fn generated_scenario(alloc: Global, number: u32) -> Mem<Scenario>
    ensures { IfOk result (λ s. ReadsScenario (generated_text number) s) }
{
    let text = generated(alloc, number)?;
    match read_scenario(alloc, &text) {
        Ok(scenario) => Ok(scenario),
        Err(_) => Err(NoMemory),
    }
}

// The summary of a scenario, whose content and farm are given up before it is run.
fn summary_in(alloc: Global, seeds: RandomState, scenario: Scenario) -> Mem<Vec<u8>>
    requires { AreActLines scenario.acts }
    ensures { IfOk result (λ text. IsSummaryIn scenario text.items) }
{
    let Scenario {
        content,
        farm,
        acts,
    } = scenario;
    let Ok(tree) = read_tree(alloc, seeds, content.bytes()) else {
        return Err(NoMemory);
    };
    drop(content);
    let Ok(farm) = given_farm(alloc, farm) else {
        return Err(NoMemory);
    };
    let counts = count_acts(
        alloc,
        Publisher::new(alloc, seeds, tree),
        farm,
        acts.bytes(),
    )?;
    let text = counts.text(alloc)?;
    Ok(text)
}

// The farm that a text gives, or the standard one. The text is given up.
fn given_farm(alloc: Global, given: Option<ByteBuf>) -> Mem<Farm>
    ensures { IfOk result (λ farm. spec.farm_in (spec.farm_text given) ≡ Ok farm) }
{
    match farm_in(alloc, farm_text(&given)) {
        Ok(farm) => Ok(farm),
        Err(_) => Err(NoMemory),
    }
}

// Makes the events of acts, and counts what happens in them.
fn count_acts(alloc: Global, publisher: Publisher, farm: Farm, acts: &[u8]) -> Mem<Counts>
    requires { AreActLines acts.now }
    ensures { IfOk result (CountsAll publisher farm acts.now) }
{
    events_extend();
    acts_are_told_by_their_lines();
    let mut session = Session::begin(alloc, publisher, farm)?;
    let mut counts = Counts::new();
    let mut rest = acts;
    while !rest.is_empty() {
        let Ok(after) = count_next(alloc, &mut session, rest, &mut counts) else {
            drop(session.end());
            return Err(NoMemory);
        };
        rest = after;
    }
    drop(session.end());
    Ok(counts)
}

// Plays the act whose line stands first, and counts what happens in it: the lines after that one.
fn count_next<'a>(
    alloc: Global,
    session: &mut Session,
    lines: &'a [u8],
    counts: &mut Counts,
) -> Mem<&'a [u8]>
    requires acts { AreActLines lines.now × (lines.now ≢ []) }
    requires room { session.old.event + length lines.now < 2 ^ 64 }
    ensures next { IfOk result (λ rest. CountsOn session.old.host.items lines.now rest.now session.old session.new counts.old counts.new) }
    ensures host { session.new.host.items ≡ session.old.host.items }
    ensures counted { OnOk result (session.new.event ≤ session.old.event + 1) }
{
    let (notes, rest) = session.play_next(alloc, lines)?;
    if let Some(notes) = notes {
        counts.count(notes.as_slice())?;
    }
    Ok(rest)
}
