// The header of a drawing, and how many words a drawing has.
ghost use Rattle.std.specs.Prelude.{◌≡◌, ◌+◌, ◌<◌};
ghost use Rattle.drawing.specs.Checks.{least, most, header_right, header_check, count_check};

use crate::table::{HEADER, ROW, Table};
use words::{Fault, HeaderWord, Refusal, expect, expect_each};

const MOST_PLACES: u32 = 1024;

const MOST_ROWS: u32 = 4096;

const MOST_ACTIONS: u32 = 64;

/// What each word of the header must be: there is a place to start at.
const WORDS: [HeaderWord; HEADER] = [
    HeaderWord {
        kind: 6,
        least: 1,
        most: MOST_PLACES,
    },
    HeaderWord {
        kind: 7,
        least: 0,
        most: MOST_ROWS,
    },
    HeaderWord {
        kind: 8,
        least: 0,
        most: MOST_ACTIONS,
    },
];

/// The lowest header word that is missing or wrong.
pub(crate) fn check_header(table: &Table<'_>) -> Result<(), Fault>
    ensures { header_check table.now.words.now result }
{
    words::check_header(table.words(), &WORDS, Refusal::DrawingHeader)
}

/// As many words as the header says; else the first position that is missing or too many.
pub(crate) fn check_count(table: &Table<'_>) -> Result<(), Fault>
    ensures { count_check table.now.words.now result }
{
    let length = table.length();
    let wanted = HEADER + table.actions() + ROW * table.rows();
    expect(length == wanted, Refusal::DrawingCount, length.min(wanted))
}
