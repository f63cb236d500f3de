//! Runs the scenario that a text spells.
ghost use Rattle.std.specs.Prelude.{◌≡◌, Ok, Err, false, IfOk, IfErr};
ghost use Rattle.replay_text.specs.Scenario.{ReadsScenario, IsScenario, longest_scenario};
ghost use Rattle.replay_text.specs.Languages.{RefusesWithin};
ghost use Rattle.sling_dispatch.specs.Endings.{Means};
ghost use Rattle.sling_dispatch.specs.InnerEndings.{AreActLines, IsDueAt, IsDueIn, PlaysOn};
ghost use Rattle.sling_dispatch.specs.Reports.{report_over};
ghost use Rattle.sling_dispatch.specs.Farms as spec;

use crate::ending::Ending;
use crate::farms::{FarmRefusal, farm_in, farm_text};
use crate::faults::refusal_line;
use crate::play::play;
use crate::refusals::{refuse_content, refuse_farm};
use crate::telling::say_line;
use any_config::Farm;
use content_json::read_tree;
use publisher::Publisher;
use replay_text::{Scenario, ScenarioFault, read_scenario};
use sp_base::ByteBuf;
use sp_outside::Sink;
use std::alloc::Global;
use std::hash::RandomState;

// Runs the scenario that a text spells. The text is given up before the content is read.
pub fn replay<K: Sink>(alloc: Global, seeds: RandomState, text: Vec<u8>, sink: &mut K) -> Ending
    ensures { Means (IsDueAt text.items) result (report_over K.held K.faults sink.old sink.new) }
{
    match scenario_of(alloc, text) {
        Ok(scenario) => session(alloc, seeds, scenario, sink),
        Err(ScenarioFault::Line(before)) => {
            say_line(sink, refusal_line(alloc, before), Ending::Refused)
        }
        Err(ScenarioFault::NoMemory) => Ending::NoMemory,
    }
}

// The scenario that a text spells, which is given up.
fn scenario_of(alloc: Global, text: Vec<u8>) -> Result<Scenario, ScenarioFault>
    ensures ok { IfOk result (λ s. ReadsScenario text.items s) }
    ensures err { IfErr result (RefusesWithin longest_scenario IsScenario text.items) }
{
    read_scenario(alloc, &text)
}

// Runs a scenario. The bytes of its content are given up before the run begins.
fn session<K: Sink>(alloc: Global, seeds: RandomState, scenario: Scenario, sink: &mut K) -> Ending
    requires { AreActLines scenario.acts }
    ensures { Means (IsDueIn scenario) result (report_over K.held K.faults sink.old sink.new) }
{
    let Scenario {
        content,
        farm,
        acts,
    } = scenario;
    let read = read_tree(alloc, seeds, content.bytes());
    drop(content);
    match read {
        Ok(tree) => run_on(
            alloc,
            Publisher::new(alloc, seeds, tree),
            farm,
            acts.bytes(),
            sink,
        ),
        Err(fault) => refuse_content(alloc, &fault, sink),
    }
}

// The farm that a text gives, or the standard one. The text is given up.
fn farm_given(alloc: Global, given: Option<ByteBuf>) -> Result<Farm, FarmRefusal>
    ensures ok { IfOk result (λ farm. spec.farm_in (spec.farm_text given) ≡ Ok farm) }
    ensures err { IfErr result (λ refusal. spec.is_out_of_memory refusal ≡ false → spec.farm_in (spec.farm_text given) ≡ Err refusal) }
{
    farm_in(alloc, farm_text(&given))
}

// Makes the events of acts on a content, before the farm that a text gives.
fn run_on<K: Sink>(
    alloc: Global,
    publisher: Publisher,
    given: Option<ByteBuf>,
    acts: &[u8],
    sink: &mut K,
) -> Ending
    requires { AreActLines acts.now }
    ensures { PlaysOn publisher given acts.now result (report_over K.held K.faults sink.old sink.new) }
{
    match farm_given(alloc, given) {
        Ok(farm) => play(alloc, publisher, farm, acts, sink),
        Err(refusal) => refuse_farm(alloc, &refusal, sink),
    }
}
