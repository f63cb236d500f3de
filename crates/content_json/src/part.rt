// What a member's value makes of its object.
ghost use Rattle.std.specs.Prelude.{◌≡◌, ◌∷◌};

use resource_tree::Node;
use sp_base::{Path, Value};

/// A node, and its path.
#[derive(Drop)]
pub(crate) struct Placed {
    pub(crate) path: Path,
    pub(crate) node: Node,
}

/// The node of an object without a fault, and all below it, each before those that are below it.
#[derive(Drop)]
pub(crate) struct Sprout {
    pub(crate) top: Placed,
    pub(crate) below: Vec<Placed>,
}

/// What a member's value makes of its object.
#[derive(Drop)]
pub(crate) enum Part {
    /// `null`.
    Nothing,
    Value(Value),
    Kid(Box<Sprout>),
    /// The value has a fault, or is too deep, or its name may not stand in content.
    Unfit,
}
