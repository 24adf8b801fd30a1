// What holds of a model's behaviour as a whole: its places, its alphabet and its ceilings.
#![tactic(auto)]

mod bounds;
mod place;

pub use bounds::{ceilings_in, knows_in};
pub use place::is_place_in;
