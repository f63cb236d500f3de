//! What is sent on a connection.
use http_front::SentBytes;

/// Bytes that are sent on a connection, an answer or an interim one.
#[derive(Drop)]
pub struct Sending {
    pub bytes: SentBytes,
    /// Whether memory ran out, so that the fixed 507 stands in place of another answer.
    pub out_of_memory: bool,
}
