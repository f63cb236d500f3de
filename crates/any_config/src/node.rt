//! What a file holds: values, and groups of them.
use sp_base::TextBuf;
use sqlite_items::Items;

/// A value of a `dispatcher.any` file.
#[derive(Drop)]
pub enum AnyNode {
    /// A text in double quotes, or a plain word.
    Word(TextBuf),
    /// A text in single quotes.
    Pattern(TextBuf),
    Group(AnyList),
}

/// The members of a group in their order: names, each with its value. The name of a value without one is empty.
pub type AnyList = Items<(TextBuf, AnyNode)>;
