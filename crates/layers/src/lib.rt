// Layers over any part: one renames its actions, one makes more actions known.
//
// A layer is itself a part. It knows the part below it by its meaning and its laws alone, whatever its make.
#![tactic(auto)]

mod extended;
mod extension;
mod pair;
mod renamed;
mod renaming;
mod table;

pub use extended::Extended;
pub use extension::Extension;
pub use renamed::Renamed;
pub use renaming::Renaming;
