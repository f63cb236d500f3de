//! Where a node or a property stands.
use sp_base::{Items, Path};

/// Where a node or a property stands, its last segment being its name.
#[derive(Drop)]
pub struct Spot {
    /// The path is relative to the node that is modified or made; else it is absolute.
    pub at_target: bool,
    pub path: Path,
}

/// A node or a property that is moved or copied.
#[derive(Drop)]
pub struct Carry {
    pub from: Spot,
    pub to: Spot,
}

pub type SpotList = Items<Spot>;

pub type CarryList = Items<Carry>;
