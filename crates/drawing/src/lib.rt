// A drawing: a part whose places and edges are written down one by one.
#![tactic(auto)]

mod alphabet;
mod drawing;
mod header;
mod here;
mod items;
mod loader;
mod places;
mod questions;
mod ranges;
mod rows;
mod table;

pub use drawing::{Drawing, Refused};
pub use loader::draw;
