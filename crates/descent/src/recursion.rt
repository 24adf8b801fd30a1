// The recursion check: marks what a process's body reaches and looks for a call of that process.
//
// Kept: a reader and a table are two parameters; in a struct with a `&mut` table each method would also promise that the
// reader stays.
ghost use Rattle.std.specs.Prelude.{◌≡◌, ℕ, ◌<◌, false, Some, Decides};
ghost use Rattle.sheet.specs.Layout.{body};
ghost use Rattle.descent.specs.Descents.{DescendsToItself};
ghost use Rattle.descent.specs.Records.{in_reach, down_from, callee, called_from};
ghost use Rattle.descent.specs.Marks.{is_new, marking, marking_all, adds_to, Marked, Closed, Spread, Reached};
ghost use Rattle.descent.specs.Verdicts.{recursion_check};

use crate::reach::in_reach;
use sheet::{Below, Reader, Step};
use words::{Fault, Refusal, expect};

// Kept: a mark is a word of the caller's table, since nothing is allocated here.
const MARK: u32 = 1;

/// Marks a record that has a word in the table; tells whether it was not marked before.
fn mark(table: &mut [u32], number: u32) -> bool
    ensures answer { result ≡ is_new table.old number }
    ensures after { table.new ≡ marking table.old number }
{
    // Kept: by `get_mut` nothing would be known of the table's words afterwards.
    let at = number as usize;
    if at < table.len() && table[at] == 0 {
        table[at] = MARK;
        return true;
    }
    false
}

/// Marks all that stands directly below a record; tells whether a mark was added.
fn mark_all(table: &mut [u32], below: Below) -> bool
    ensures answer { result ≡ adds_to below table.old }
    ensures after { table.new ≡ marking_all below table.old }
{
    match below {
        Below::Absent | Below::Leaf => false,
        Below::One(a) => mark(table, a),
        Below::Two(a, b) => {
            let first = mark(table, a);
            let second = mark(table, b);
            first || second
        }
    }
}

/// Marks all that stands directly below marked records, from the highest record down; tells whether a mark was added.
fn spread(reader: &Reader<'_>, table: &mut [u32]) -> bool
    ensures spread { Spread (down_from reader.now.words.now table.old) table.old table.new result }
    ensures closed { result ≡ false → (k : ℕ) → k < in_reach reader.now.words.now table.old → Closed (down_from reader.now.words.now table.old) table.new k }
{
    let mut added = false;
    // Kept: a turn marks other words of the table than its own, so the table is not iterated.
    for number in (0..in_reach(reader, table)).rev() {
        if table[number as usize] != 0 && mark_all(table, reader.below(number)) {
            added = true;
        }
    }
    added
}

/// Marks exactly what a process's body reaches.
fn mark_reached(reader: &Reader<'_>, process: u32, table: &mut [u32])
    ensures { Reached (down_from reader.now.words.now table.old) (in_reach reader.now.words.now table.old) (body reader.now.words.now process) table.new }
{
    table.fill(0);
    mark(table, reader.body(process));
    // Kept: no number is counted; it goes on until no mark is added.
    while spread(reader, table) {}
}

/// Whether a step is a call of a process.
fn is_call(step: Step, process: u32) -> bool
    ensures { Decides result (callee step ≡ Some process) }
{
    matches!(step, Step::Call(called) if called == process)
}

/// Whether a call of a process is marked.
fn marks_call(reader: &Reader<'_>, process: u32, table: &[u32]) -> bool
    ensures { Decides result ((k : ℕ) × Marked table.now k × (called_from reader.now.words.now table.now k ≡ Some process)) }
{
    table.iter().zip(0..reader.records()).any(|(word, number)| *word != 0
        && is_call(reader.step(number), process))
}

/// Whether a process descends to itself.
fn descends_to_itself(reader: &Reader<'_>, process: u32, table: &mut [u32]) -> bool
    ensures { Decides result (DescendsToItself (down_from reader.now.words.now table.old) (called_from reader.now.words.now table.old) (body reader.now.words.now) process) }
{
    mark_reached(reader, process, table);
    marks_call(reader, process, table)
}

/// The lowest process that descends to itself.
pub(crate) fn check_recursion(reader: &Reader<'_>, table: &mut [u32]) -> Result<(), Fault>
    ensures { recursion_check reader.now.words.now (in_reach reader.now.words.now table.old) result }
{
    // Kept: the test writes to the table, which a test of `expect_each` may not.
    for process in 0..reader.processes() {
        let recursive = descends_to_itself(reader, process, table);
        expect(!recursive, Refusal::Recursion, process as usize)?;
    }
    Ok(())
}
