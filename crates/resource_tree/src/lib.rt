//! The content of a site as a tree of nodes with properties: a finite map from paths to nodes.
//!
//! Each path's parent is there, the kids of a node are exactly the last segments of the paths one
//! segment longer, each once, and no kid has the name of a property of its node.
#![tactic(auto)]

mod duplicate;
mod faults;
mod look;
mod node_map;
mod nodes;
mod patch;
mod places;
mod room;
mod rows;
mod table;
mod tree;

pub use faults::{TreeFault, name_taken, no_such, node_exists};
pub use look::{Look, Res, Shown};
pub use node_map::NodeMap;
pub use nodes::{MOST_NODES, Node};
pub use patch::{Patch, PatchNode};
pub use places::Place;
pub use room::RoomyTree;
pub use tree::Tree;
