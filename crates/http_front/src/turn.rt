//! What a stream spells next.
use sp_base::Req;

/// What a stream spells next.
#[derive(Drop)]
pub enum Turn {
    /// The sender of the request that follows waits for 100 Continue with its body (RFC 9110, section 10.1.1).
    Continue,
    /// A request with its whole body.
    Whole(Req),
}
