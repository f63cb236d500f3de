//! Where in a pattern a reading stands.

/// Where in a pattern a reading stands, after the characters so far.
#[derive(Clone, Copy, Drop)]
pub(crate) enum Mode {
    /// At the beginning, where a `^` may stand.
    Begin,
    /// In a row.
    Row,
    /// After a `\`.
    Escape,
    /// After the `$` at the end.
    End,
    /// After a `[`.
    ClassBegin,
    /// After `[^`.
    ClassFirst,
    /// After a character of a class with which a range may begin, and the place of its first byte.
    Member(char, usize),
    /// After such a character and a `-`.
    Hyphen(char, usize),
    /// After a range.
    Spanned,
    /// After a range and a `-`, which has to be the last of the class.
    LastHyphen,
    /// After a `\` in a class, at this place.
    MemberEscape(usize),
    /// After a `\` where a range may end.
    LastEscape(char, usize),
}
