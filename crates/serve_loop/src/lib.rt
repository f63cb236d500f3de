//! Serves clients: turns over what comes from the world, each with the steps of a front that are due for it.
#![tactic(auto)]

mod handing;
mod laws;
mod rounds;
mod serving;
mod steps;
mod turn;

pub use handing::HandedOn;
pub use laws::{
    connections_go_for_a_cause, each_happening_has_a_turn, failures_are_counted,
    served_sessions_leave_legal_logs, sessions_begin_in_legal_logs, turns_end_with_one_slice,
    turns_land_all,
};
pub use serving::{ServeEnd, serve};
