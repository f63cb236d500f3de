//! Laws of the definitions, on functions that do nothing.
ghost use Rattle.std.specs.Prelude.{ℕ};
ghost use Rattle.replay_text.specs.Languages.{IsRefusedWithin};
ghost use Rattle.replay_text.specs.Scenario.{IsScenario, ReadsScenario, longest_scenario};
ghost use Rattle.replay_text.specs.declared.scenario.Scenario.{Scenario};
ghost use Rattle.soak_scenarios.specs.Soaks.{generated_text};

/// The text that is made from a number, whichever it is, spells a scenario, within the length allowed (`spelled`); so no line of it is refused
/// (`accepted`).
pub fn the_text_of_a_number_is_a_scenario()
    ensures spelled { (number : ℕ) → (s : Scenario) × ReadsScenario (generated_text number) s }
    ensures accepted { (number before : ℕ) → IsRefusedWithin longest_scenario IsScenario (generated_text number) before → ⊥ }
{}
