//! What follows the last `@` in the name of a parameter.

#[derive(Clone, Copy, PartialEq, Eq, Debug, Drop)]
pub enum Suffix {
    /// There is no `@`: the word is a value.
    Plain,
    TypeHint,
    DefaultValue,
    Delete,
    MoveFrom,
    CopyFrom,
    ValueFrom,
    IgnoreBlanks,
}
