//! The connections of a front: which turn of a stream gets which answer, in which order the answers are sent, and when a connection
//! closes (RFC 9112, section 9).
#![tactic(auto)]

mod answer_queue;
mod awaited;
mod laws;
mod place;
mod sending;

pub use answer_queue::AnswerQueue;
pub use awaited::Awaited;
pub use cache_ids::{FlightId, FlushId};
pub use connection_ids::ConnectionId;
pub use laws::{
    a_closing_connection_ends, answers_in_order, each_turn_is_treated,
    permitted_hits_of_a_legal_log_are_hits, slots_of_turns, the_fixed_answer_is_its_bytes,
};
pub use place::{AnswerPlace, Reply};
pub use sending::Sending;
