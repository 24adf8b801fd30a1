// The work table: each behaviour's depth and span, and the check of their limits.
//
// Kept: a reader and a table are two parameters; in a struct with a `&mut` table each method would also promise that the
// reader stays.
ghost use Rattle.std.specs.Prelude.{◌<◌, Decides};
ghost use Rattle.words.specs.Checks.{Clear};
ghost use Rattle.descent.specs.Descents.{Behaviour};
ghost use Rattle.descent.specs.Records.{in_reach, down_from};
ghost use Rattle.descent.specs.Sizes.{Deep};
ghost use Rattle.descent.specs.Growth.{Grown, True, Settled};
ghost use Rattle.descent.specs.Verdicts.{depth_check, span_check};

use crate::reach::in_reach;
use crate::word::{MAX_SPAN, span, word_over};
use sheet::{Below, Reader};
use words::{Fault, Refusal, expect_each};

/// Gives each record its word, from the lowest record up, where those below have theirs; tells whether a word was given.
fn grow(reader: &Reader<'_>, table: &mut [u32]) -> bool
    ensures { Grown (down_from reader.now.words.now table.old) (in_reach reader.now.words.now table.old) table.old table.new result }
{
    let mut changed = false;
    // Kept: a turn reads other words of the table than the one that it writes, so the table is not iterated.
    for number in 0..in_reach(reader, table) {
        if table[number as usize] == 0 {
            if let Some(word) = word_over(table, reader.below(number)) {
                table[number as usize] = word;
                changed = true;
            }
        }
    }
    changed
}

/// Gives every record its word that can have one.
pub(crate) fn settle(reader: &Reader<'_>, table: &mut [u32])
    ensures known { True (down_from reader.now.words.now table.old) table.new }
    ensures settled { Settled (down_from reader.now.words.now table.old) (in_reach reader.now.words.now table.old) table.new }
{
    table.fill(0);
    // Kept: no number is counted; it goes on until no word is given.
    while grow(reader, table) {}
}

/// A sheet and its settled table: every record has its word that can have one.
#[derive(Clone, Copy)]
pub(crate) struct Sizes<'a> {
    pub reader: &'a Reader<'a>,
    pub table: &'a [u32],
    ghost known: { ∥ True (down_from reader.now.words.now table.now) table.now ∥₁ },
    ghost settled: { Settled (down_from reader.now.words.now table.now) (in_reach reader.now.words.now table.now) table.now },
}

/// Whether what stands below a record is a behaviour's.
fn is_behaviour(below: Below) -> bool
    ensures { Decides result (Behaviour below) }
{
    !matches!(below, Below::Absent)
}

impl Sizes<'_> {
    /// Whether a record is a behaviour that is too deep: one that has no word.
    fn is_too_deep(&self, number: u32) -> bool
        requires { number < in_reach self.now.reader.now.words.now self.now.table.now }
        ensures { Decides result (Deep (down_from self.now.reader.now.words.now self.now.table.now) number) }
    {
        self.table[number as usize] == 0 && is_behaviour(self.reader.below(number))
    }

    /// The lowest behaviour that is too deep.
    pub(crate) fn check_depths(&self) -> Result<(), Fault>
        ensures { depth_check self.now.reader.now.words.now (in_reach self.now.reader.now.words.now self.now.table.now) result }
    {
        let count = in_reach(self.reader, self.table);
        expect_each(count, Refusal::Depth, 0, |number| !self.is_too_deep(number))
    }

    /// The lowest behaviour whose span is too large, where none is too deep.
    pub(crate) fn check_spans(&self) -> Result<(), Fault>
        requires { Clear (Deep (down_from self.now.reader.now.words.now self.now.table.now)) (in_reach self.now.reader.now.words.now self.now.table.now) }
        ensures { span_check self.now.reader.now.words.now (in_reach self.now.reader.now.words.now self.now.table.now) result }
    {
        let count = in_reach(self.reader, self.table);
        expect_each(count, Refusal::Span, 0, |number| {
            span(self.table[number as usize]) <= MAX_SPAN
        })
    }
}
