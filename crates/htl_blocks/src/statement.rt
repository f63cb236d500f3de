//! The names of block statements.

ghost use Rattle.std.specs.Prelude.{◌≡◌, ◌≢◌, IfOk, option_copied};

use sp_base::TextBuf;

/// A block statement without its value.
#[derive(Drop)]
pub enum Statement {
    Test,
    /// With the variable that has the items.
    List(TextBuf),
    Text,
    Include,
    Resource,
    Unwrap,
}
