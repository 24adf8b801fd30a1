// Loading: words become a drawing, or are given back with the fault.
ghost use Rattle.std.specs.Prelude.{Ok};
ghost use Rattle.words.specs.Checks.{Single};
ghost use Rattle.drawing.specs.Checks.{verdict};
ghost use Rattle.drawing.specs.Drawings.{Accepted, Drawn};

use crate::alphabet::check_alphabet;
use crate::drawing::{Drawing, Refused};
use crate::header::{check_count, check_header};
use crate::places::START;
use crate::ranges::Sorted;
use crate::rows::check_rows;
use crate::table::Table;
use words::Fault;

/// Whether the words of a drawing are right; else the first fault.
fn check(table: &Table<'_>) -> Result<(), Fault>
    ensures { verdict table.now.words.now result }
{
    check_header(table)?;
    check_count(table)?;
    check_alphabet(table)?;
    check_rows(table)
}

/// The drawing of words that are right, at its start.
fn at_start(words: Vec<u32>) -> Drawing
    requires { verdict words.items (Ok tt) }
    ensures { Accepted words.items result }
{
    let sorted = Sorted {
        table: Table::new(&words),
    };
    let rows = sorted.rows_at(START);
    let ceilings = sorted.ceilings();
    Drawing {
        words,
        place: START,
        rows,
        ceilings,
    }
}

/// The drawing of words, at its start, or the words back with the fault.
pub fn draw(words: Vec<u32>) -> Result<Drawing, Refused>
    ensures drawn { Drawn words.items result }
    ensures single { Single (verdict words.items) }
{
    // Kept: both cases take the words, so a closure for either would have to own them.
    match check(&Table::new(&words)) {
        Ok(()) => Ok(at_start(words)),
        Err(fault) => Err(Refused { fault, words }),
    }
}
