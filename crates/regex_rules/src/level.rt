//! What a match knows of rows while it goes over them.

/// What is known of some rows at a place in the last of them, with one more character of the text.
#[derive(Clone, Copy, Drop)]
pub(crate) struct Level {
    /// Whether the text before the character reaches the beginning of the rows.
    pub(crate) enters: bool,
    /// Whether it reaches this place.
    pub(crate) here: bool,
    /// Whether the text with the character arrives at this place, by more than nothing of the row.
    pub(crate) arrives: bool,
    /// Whether the row may take nothing up to here.
    pub(crate) lacks: bool,
    /// Whether the text with the character arrives at the end of an earlier row, by more than nothing of it.
    pub(crate) earlier_arrives: bool,
    /// Whether an earlier row may take nothing.
    pub(crate) earlier_lacks: bool,
}

/// What stands around an open bracket: what is known there, and the place of the bracket.
#[derive(Clone, Copy, Drop)]
pub(crate) struct Frame {
    pub(crate) level: Level,
    pub(crate) slot: usize,
}
