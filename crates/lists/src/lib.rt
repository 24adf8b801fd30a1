// Lists of edges: written by records that undo themselves unless they are closed, and read once they are ended.
#![tactic(auto)]

ghost use Rattle.std.specs.Prelude.{◌<◌};
ghost use Rattle.lists.specs.Format.{payloads};

mod clash;
mod ending;
mod format;
mod listing;
mod reading;
mod record;
mod writer;

pub use listing::{Unlisted, list};
pub use reading::List;
pub use record::Open;

/// The end of a list that is being written, and the number of its edges.
///
/// The list's words are lent beside it to each call that reads or writes them.
// Kept: the words stay beside it: `Open::put`, which is public, takes them so, and hands them back to its caller after each word.
#[derive(Drop)]
pub struct Mark {
    end: usize,
    count: usize,
    ghost counted: { count < payloads },
}

/// How many edges an ended list has, and how many words it takes. Only ending a list gives them.
#[derive(Clone, Copy, PartialEq, Eq, Debug)]
pub struct Counts {
    edges: usize,
    words: usize,
}
