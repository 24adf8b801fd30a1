// Reading an ended list, from edge to edge and from branch to branch, each once.
#![tactic(auto)]

mod item;
mod items;
mod reading;
mod rows;

pub use item::{Kind, Listed};
pub use items::Items;
pub use reading::{BranchKind, EdgeKind, ListedBranch, ListedEdge, edge, edge_count, edges};
