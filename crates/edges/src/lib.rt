// The edge at the end of a path: its action and its branches, once it has passed all frames.
#![tactic(auto)]

mod edge;
mod frame;
mod leaf;
mod passed;

pub use edge::{Branch, Edge};
pub use frame::Goal;
pub use passed::edge_of;
