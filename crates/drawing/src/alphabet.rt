// The alphabet of a drawing: observable actions that rise strictly.
ghost use Rattle.std.specs.Prelude.{◌≡◌, ◌<◌};
ghost use Rattle.drawing.specs.Checks.{action_right, alphabet_check, in_alphabet};

use crate::table::{HEADER, Table};
use words::{Fault, Refusal, expect_each, is_observable};

/// Whether a word of the alphabet is observable and greater than the one before.
fn action_right(table: &Table<'_>, i: usize) -> bool
    requires { i < 268435456 }
    ensures { result ≡ action_right table.now.words.now i }
{
    let action = table.word(HEADER + i);
    let before = if i == 0 {
        0
    } else {
        table.word(HEADER + i - 1)
    };
    is_observable(action) && before < action
}

/// The lowest word of the alphabet that is not observable or not greater than the one before.
pub(crate) fn check_alphabet(table: &Table<'_>) -> Result<(), Fault>
    ensures { alphabet_check table.now.words.now result }
{
    let count = table.actions() as u32;
    expect_each(
        count,
        Refusal::DrawingAlphabet,
        HEADER,
        |i| action_right(table, i as usize),
    )
}

/// Whether an action is in the alphabet.
// Kept: not `contains` on a slice, since words past the end count as 0 here too, as everywhere.
pub(crate) fn in_alphabet(table: &Table<'_>, action: u32) -> bool
    ensures { result ≡ in_alphabet table.now.words.now action }
{
    (HEADER..HEADER + table.actions()).any(|at| table.word(at) == action)
}
