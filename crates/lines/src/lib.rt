// The lines of a report on an ended list: its head, its edges and their branches, as bytes.
#![tactic(auto)]

mod letters;
mod line;
mod report;
mod texts;

pub use report::{branch_line, edge_line, head_line, listed_branch_line, listed_edge_line};
