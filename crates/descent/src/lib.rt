// Descending through a sheet's records: no process may come back to itself, and each behaviour has a depth and a span.
#![tactic(auto)]

mod check;
mod reach;
mod recursion;
mod sizes;
mod word;

pub use check::measure;
pub use word::{depth, span};
