// The rows of a drawing, word by word.
ghost use Rattle.std.specs.Prelude.{◌≡◌};
ghost use Rattle.drawing.specs.Checks.{from_before, from_right, label_right, condition_right, deadline_right, field_right, row_right, row_check};

use crate::alphabet::in_alphabet;
use crate::places::{is_drawn, is_place_word};
use crate::table::{HEADER, ROW, Row, Table};
use words::{Fault, NONE, Refusal, TAU, Term, expect_each, is_exception, is_number};

/// Whether a row may begin at a place after a row that begins at another.
fn from_right(table: &Table<'_>, last: u32, word: u32) -> bool
    ensures { result ≡ from_right table.now.words.now last word }
{
    is_drawn(table, word) && last <= word
}

/// Whether a row may have an action: tau, an exception or one of the alphabet.
fn label_right(table: &Table<'_>, word: u32) -> bool
    ensures { result ≡ label_right table.now.words.now word }
{
    word == TAU || is_exception(word) || in_alphabet(table, word)
}

/// Whether a word is a condition or none.
fn condition_right(word: u32) -> bool
    ensures { result ≡ condition_right word }
{
    word == NONE || is_number(word)
}

/// Whether a word is a deadline: a constant, false or true, or a condition.
fn deadline_right(word: u32) -> bool
    ensures { result ≡ deadline_right word }
{
    matches!(
        Term::try_from(word),
        Ok(Term::Constant(_) | Term::Condition(_))
    )
}

/// Whether word j of a row is right, after a row that begins at the place `last`.
fn field_right(table: &Table<'_>, last: u32, row: Row, j: usize) -> bool
    ensures { result ≡ field_right table.now.words.now last row j }
{
    match j {
        0 => from_right(table, last, row.from),
        1 => label_right(table, row.action),
        2 => condition_right(row.condition),
        3 => deadline_right(row.deadline),
        _ => is_place_word(table, row.outcome),
    }
}

/// The place at which the row before a row begins; 0 before the first.
fn from_before(table: &Table<'_>, number: usize) -> u32
    ensures { result ≡ from_before table.now.words.now number }
{
    if number == 0 {
        0
    } else {
        table.row(number - 1).from
    }
}

/// Whether word j of a row is right.
#[tactic(auto, unfolding(crate::specs::Checks::row_right))]
fn row_right(table: &Table<'_>, number: usize, j: usize) -> bool
    ensures { result ≡ row_right table.now.words.now number j }
{
    field_right(table, from_before(table, number), table.row(number), j)
}

/// The lowest word of all rows that is wrong.
pub(crate) fn check_rows(table: &Table<'_>) -> Result<(), Fault>
    ensures { row_check table.now.words.now result }
{
    let count = ROW * table.rows();
    let first = HEADER + table.actions();
    expect_each(count as u32, Refusal::DrawingRow, first, |word| {
        row_right(table, word as usize / ROW, word as usize % ROW)
    })
}
