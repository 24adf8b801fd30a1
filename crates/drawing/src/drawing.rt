// A drawing: words that were found right, and the place where it stands.
ghost use Rattle.std.specs.Prelude.{◌≡◌, true};
ghost use Rattle.drawing.specs.Automata.{ceilings_of};
ghost use Rattle.drawing.specs.Checks.{is_place_word};
ghost use Rattle.drawing.specs.Ranges.{range_of};
ghost use Rattle.drawing.specs.Right.{Headed, Counted, Alphabetical, Tabled};

use part::Ceilings;
use std::ops::Range;
use words::Fault;

/// The part that the words of a drawing describe. It begins at the first place.
#[derive(Drop)]
pub struct Drawing {
    pub(crate) words: Vec<u32>,
    /// The code of the present place, one word.
    pub(crate) place: u32,
    /// The rows of the present place.
    pub(crate) rows: Range<usize>,
    pub(crate) ceilings: Ceilings,
    ghost headed: { Headed words.items },
    ghost counted: { Counted words.items },
    ghost alphabetical: { Alphabetical words.items },
    ghost tabled: { Tabled words.items },
    ghost stands: { is_place_word words.items place ≡ true },
    ghost found: { rows ≡ range_of words.items place },
    ghost told: { ceilings ≡ ceilings_of words.items },
}

/// What a refused drawing leaves: the fault, and the words that were handed in.
#[derive(Drop)]
pub struct Refused {
    pub fault: Fault,
    pub words: Vec<u32>,
}
