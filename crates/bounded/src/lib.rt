// A list of at most N entries in a fixed buffer, which never allocates and can be copied.
#![tactic(auto)]

mod bounded;

pub use bounded::{Bounded, Full};
