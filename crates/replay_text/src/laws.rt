//! Laws of the definitions, on functions that do nothing.
ghost use Rattle.std.specs.Prelude.{◌≡◌, ℕ, List, map};
ghost use Rattle.replay_text.specs.Languages.{IsRefusedWithin};
ghost use Rattle.replay_text.specs.Scenario.{SpellsScenario, IsScenario, longest_scenario};
ghost use Rattle.replay_text.specs.Transcript.{told_notes, transcript, EventsAreWritable};
ghost use Rattle.run_events.specs.declared.note.Note.{Note};
ghost use Rattle.replay_text.specs.Written.{scenario_text};
ghost use Rattle.replay_text.specs.declared.scenario.Scenario.{Scenario};

use cover_rules::a_page_has_one_key;
use sp_base::{mangling_and_unmangling, segments_and_their_spelling};

/// A text spells at most one scenario.
pub fn one_reading()
    ensures { (text : List ℕ) (s t : Scenario) → SpellsScenario text s → SpellsScenario text t → s ≡ t }
{}

/// A text is refused at one line at most.
pub fn one_refusal()
    ensures { (text : List ℕ) (n m : ℕ) → IsRefusedWithin longest_scenario IsScenario text n → IsRefusedWithin longest_scenario IsScenario text m → n ≡ m }
{}

/// A scenario has at most one text.
pub fn a_scenario_has_one_text()
    ensures { (text : List ℕ) (s : Scenario) → SpellsScenario text s → text ≡ scenario_text s }
{}

/// A transcript tells what its lines can of its events, where their numbers fit, their keys are those of pages and their handles those of
/// requests; and it depends on nothing else.
pub fn a_transcript_tells_its_events()
    ensures told { (a b : List (List Note)) → EventsAreWritable a → EventsAreWritable b → transcript a ≡ transcript b → map told_notes a ≡ map told_notes b }
    ensures alone { (a b : List (List Note)) → map told_notes a ≡ map told_notes b → transcript a ≡ transcript b }
{
    a_page_has_one_key();
    segments_and_their_spelling();
    mangling_and_unmangling();
}
