//! What an event ran under.

/// What an event ran under.
#[derive(Clone, Copy, PartialEq, Eq, Drop)]
pub struct Conditions {
    /// The disk failed.
    pub disk_failed: bool,
    /// Memory ran out.
    pub out_of_memory: bool,
}
