//! Scenarios and transcripts as texts: how the events of a run are asked for, and how what happened in them is told.
#![tactic(auto)]

mod acts;
mod cache_lines;
mod event_line;
mod event_lines;
mod event_reader;
mod handles;
mod laws;
mod lines;
mod quoted;
mod quoting;
mod reader;
mod scenario;
mod targets;
mod transcript;
mod writer;

pub use acts::{acts_are_told_by_their_lines, first_act};
pub use event_line::{EventLine, NamedFlight};
pub use event_lines::read_event_line;
pub use event_reader::number;
pub use laws::{a_scenario_has_one_text, a_transcript_tells_its_events, one_reading, one_refusal};
pub use reader::{LONGEST_SCENARIO, read_scenario};
pub use scenario::{Scenario, ScenarioFault};
pub use transcript::write_notes;
pub use writer::write_scenario;
