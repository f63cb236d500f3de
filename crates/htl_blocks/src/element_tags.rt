//! The tags of an element.

use crate::block::Tag;

/// The start tag and the end tag of an element, lent.
#[derive(Clone, Copy, Drop)]
pub struct ElementTags<'a> {
    pub start: &'a Tag,
    pub end: &'a str,
}
