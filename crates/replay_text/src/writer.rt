//! Writes scenarios.
ghost use Rattle.std.specs.Prelude.{◌≡◌, ◌++◌, IfOk, OnOk};
ghost use Rattle.replay_text.specs.Scenario.{IsSpelled, SpellsScenario};
ghost use Rattle.replay_text.specs.Written.{farm_part, scenario_text};

use crate::laws::a_scenario_has_one_text;
use crate::scenario::Scenario;
use crate::transcript::push;
use sp_base::{ByteBuf, Mem};
use std::alloc::Global;

// The lines about a farm.
fn push_farm(out: &mut Vec<u8>, farm: &Option<ByteBuf>) -> Mem<()>
    ensures { OnOk result (out.new.items ≡ out.old.items ++ farm_part farm.now) }
{
    match farm {
        Some(farm) => {
            push(out, b"farm\n")?;
            push(out, farm.bytes())?;
            push(out, b".\n")
        }
        None => Ok(()),
    }
}

/// The text of a scenario. If a text spells the scenario, this one does, so it is read as the scenario again, where it isn't too long.
pub fn write_scenario(alloc: Global, scenario: &Scenario) -> Mem<ByteBuf>
    ensures text { IfOk result (λ text. text ≡ scenario_text scenario.now) }
    ensures spells { IfOk result (λ text. IsSpelled scenario.now → SpellsScenario text scenario.now) }
{
    a_scenario_has_one_text();
    let mut out = Vec::new(alloc);
    push(&mut out, b"scenario 1\ncontent\n")?;
    push(&mut out, scenario.content.bytes())?;
    push(&mut out, b".\n")?;
    push_farm(&mut out, &scenario.farm)?;
    push(&mut out, scenario.acts.bytes())?;
    push(&mut out, b"end\n")?;
    Ok(ByteBuf::from(out))
}
