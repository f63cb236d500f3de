//! The operations.
use crate::{CarryList, LentWords, Spot, SpotList};
use resource_tree::Place;
use sp_base::{Hint, Items, Path, TextBuf};

/// A property that is set to words, at least one.
#[derive(Drop)]
pub struct PropSet<'a> {
    pub spot: Spot,
    pub hint: Option<Hint>,
    pub words: LentWords<'a>,
}

pub type SetList<'a> = Items<PropSet<'a>>;

/// The name of a node that is made.
#[derive(Drop)]
pub enum NameWish {
    /// This name, which is a segment of a path.
    Exact(TextBuf),
    /// This name, or where it is taken the name with the least of `_0`, `_1`, .. that is free.
    Hint(TextBuf),
}

/// A node is made or modified.
#[derive(Drop)]
pub struct ModifyOp<'a> {
    /// The node, or the parent of a new one.
    pub target: Path,
    /// The name of the new node.
    pub fresh: Option<NameWish>,
    pub deletes: SpotList,
    pub moves: CarryList,
    pub copies: CarryList,
    pub sets: SetList<'a>,
    /// The node's place among its siblings.
    pub place: Option<Place>,
}

/// A node is copied or moved.
#[derive(Drop)]
pub struct CarryOp {
    pub from: Path,
    pub to: Path,
    /// A node at the goal gives way.
    pub replace: bool,
}

#[derive(Drop)]
pub enum Op<'a> {
    Nop(Path),
    Delete(Path),
    Copy(CarryOp),
    Move(CarryOp),
    Modify(ModifyOp<'a>),
}
