//! What an operator is told of a server on the standard error.
#![tactic(auto)]

mod fault_answers;
mod head_in_pieces;
mod object_count;
mod open_requests;
mod report;
mod reported_inputs;
mod reported_world;
mod request_head;

pub use report::Report;
pub use reported_inputs::ReportedInputs;
pub use reported_world::ReportedWorld;
