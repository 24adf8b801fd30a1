// A behaviour: the part that a loaded model describes.
#![tactic(auto)]

mod behaviour;
mod here;
mod outcome;
mod questions;

pub use behaviour::Behaviour;
