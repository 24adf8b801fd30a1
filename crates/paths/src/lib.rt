// The way down from a place to one of its edges.
#![tactic(auto)]

mod code;
mod descend;
mod path;
mod stack;
mod word;

pub use code::Code;
pub use descend::path_to;
pub use path::{Head, Path};
pub use stack::Stack;
