// A model sheet: its words read record by record.
#![tactic(auto)]

mod chains;
mod kinds;
mod reader;
mod step;

pub use chains::{Chain, Survey};
pub use kinds::{Kind, NoKind};
pub use reader::{Reader, Record};
pub use step::{Below, Step};
