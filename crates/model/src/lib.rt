// A loaded model: a sheet that was found right, with the depth and the span of each behaviour.
#![tactic(auto)]

ghost use Rattle.std.specs.Prelude.{◌≡◌, ◌+◌, ◌*◌, length};
ghost use Rattle.sheet.specs.Layout.{processes, records};
ghost use Rattle.model.specs.Loaded.{Headed, Bodied, Worded, Unrepeated, Bounded, Measured, Limited};

mod loader;
mod reads;

pub use loader::load;
use words::Fault;

// Kept: words and table lie beside each other, and records name records by number, since both are handed in and given back so.

/// A sheet that was found right, and its work table: for each behaviour depth times 65,536 plus span.
#[derive(Drop)]
pub struct Model {
    words: Vec<u32>,
    table: Vec<u32>,
    ghost headed: { Headed words.items },
    ghost counted: { length words.items ≡ 3 + processes words.items + 4 * records words.items },
    ghost tabled: { length table.items ≡ records words.items },
    ghost bodied: { Bodied words.items },
    ghost worded: { Worded words.items },
    ghost unrepeated: { Unrepeated words.items },
    ghost bounded: { Bounded words.items },
    ghost measured: { Measured words.items table.items },
    ghost limited: { Limited words.items table.items },
}

/// What a refused sheet leaves: the fault, and the words and the table that were handed in.
#[derive(Drop)]
pub struct Refused {
    pub fault: Fault,
    pub words: Vec<u32>,
    pub table: Vec<u32>,
}
