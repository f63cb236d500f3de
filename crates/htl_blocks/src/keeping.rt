//! What is kept of a text that is written.

/// What is kept of what a script writes.
#[derive(Clone, Copy, Drop)]
pub enum Keeping {
    All,
    /// The text, without what is put in from elsewhere.
    TextAlone,
}
