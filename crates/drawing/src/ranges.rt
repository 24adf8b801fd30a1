// Where the rows of a place stand, and the ceilings.
ghost use Rattle.std.specs.Prelude.{◌≡◌};
ghost use Rattle.drawing.specs.Automata.{most_rows, ceilings_of};
ghost use Rattle.drawing.specs.Ranges.{range_of, Rising};
ghost use Rattle.drawing.specs.Right.{Counted};

use crate::places::START;
use crate::table::Table;
use part::Ceilings;
use std::ops::Range;

/// Every edge has one branch of weight 1.
const WEIGHT: usize = 1;

/// A guard has at most one condition, a deadline and a code have one word.
const SIZE: usize = 2;

/// A table that has all its rows, and they rise by the places at which they begin.
#[derive(Clone, Copy)]
pub(crate) struct Sorted<'a> {
    pub table: Table<'a>,
    ghost counted: { Counted table.words.now },
    ghost rising: { Rising table.words.now },
}

impl Sorted<'_> {
    /// The rows that begin at the place of a word: they follow one another.
    pub(crate) fn rows_at(&self, word: u32) -> Range<usize>
        ensures { result ≡ range_of self.now.table.words.now word }
    {
        let rows = self.table.all_rows();
        let start = rows.partition_point(|row| row[0] < word);
        let end = rows.partition_point(|row| row[0] <= word);
        start..end
    }

    /// The most rows of a place.
    fn most_rows(&self) -> usize
        ensures { result ≡ most_rows self.now.table.words.now }
    {
        (START..START + self.table.places())
            .map(|word| self.rows_at(word).len())
            .max()
            .unwrap_or(0)
    }

    /// The ceilings of a drawing.
    pub(crate) fn ceilings(&self) -> Ceilings
        ensures { result ≡ ceilings_of self.now.table.words.now }
    {
        Ceilings {
            edges: 1 + self.most_rows().max(1),
            weight: WEIGHT,
            size: SIZE,
        }
    }
}
