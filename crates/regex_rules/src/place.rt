//! The places of a pattern, in the order of its text.
use crate::{OneChar, Repeat};

/// A place of a pattern: what stands there.
#[derive(Drop)]
pub enum PatternPlace {
    /// One character, and how often.
    One(OneChar, Repeat),
    /// `(`
    Open,
    /// `|`
    Bar,
    /// `)`, and how often what the brackets hold stands.
    Close(Repeat),
}
