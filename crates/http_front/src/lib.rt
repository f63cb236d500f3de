//! HTTP/1.1 at the edge: the requests that the bytes of a connection spell, however they are cut into pieces, and the bytes of answers
//! (RFC 9110, RFC 9112).
#![tactic(auto)]

mod answer;
mod fault;
mod fields;
mod head;
mod host;
mod intake;
mod laws;
mod prepared_answer;
mod sent_bytes;
mod target;
mod turn;
mod window;

pub use answer::{Framing, answer_bytes, answer_head, fixed_507, interim_100};
pub use fault::{INSUFFICIENT_STORAGE, InFault};
pub use intake::Intake;
pub use laws::{
    an_answer_is_its_head_and_its_content, no_value_ends_its_line, the_end_of_a_stream,
    the_turns_of_a_beginning,
};
pub use prepared_answer::{OPEN_GET, PreparedAnswer};
pub use sent_bytes::{SentBytes, SentParts};
pub use target::{Target, read_target};
pub use turn::Turn;
