//! What a script is made of.

use crate::attribute::Attributes;
use htl_text::Template;
use sp_base::TextBuf;
use sqlite_items::{Boxed, Items};

/// A start tag: its block statements, and its text without them.
#[derive(Drop)]
pub struct Tag {
    pub attributes: Attributes,
    pub start: Template,
}

/// A piece of a script.
#[derive(Drop)]
pub enum Block {
    Text(Template),
    /// An element with its start tag, its content and its end tag, which is empty where the element has no content.
    Element(Boxed<Tag>, Items<Block>, TextBuf),
}
