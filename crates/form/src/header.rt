// The header and the process words of a sheet, and how many words it has.
ghost use Rattle.std.specs.Prelude.{◌≡◌, ◌+◌, ◌<◌, length};
ghost use Rattle.form.specs.Header.{least, most, header_right, process_right, header_check, count_check, table_check, process_check};

use crate::field::Target;
use sheet::Reader;
use words::{Fault, HeaderWord, Refusal, expect, expect_each, kind};

const MOST_PROCESSES: u32 = 256;

const MOST_RECORDS: u32 = 2048;

/// What each word of the header must be.
const HEADER: [HeaderWord; 3] = [
    HeaderWord {
        kind: 1,
        least: 1,
        most: MOST_PROCESSES,
    },
    HeaderWord {
        kind: 2,
        least: 1,
        most: MOST_RECORDS,
    },
    HeaderWord {
        kind: 3,
        least: 0,
        most: 1,
    },
];

/// The lowest header word that is missing or wrong.
pub(crate) fn check_header(reader: &Reader<'_>) -> Result<(), Fault>
    ensures { header_check reader.now.words.now result }
{
    words::check_header(reader.words(), &HEADER, Refusal::Header)
}

/// As many words as the header says.
pub(crate) fn check_count(reader: &Reader<'_>) -> Result<(), Fault>
    ensures { count_check reader.now.words.now result }
{
    let wanted = 3 + reader.processes() as usize + 4 * reader.records() as usize;
    expect(reader.length() == wanted, Refusal::Count, reader.length())
}

/// A table of one word for each record.
pub(crate) fn check_table(reader: &Reader<'_>, room: usize) -> Result<(), Fault>
    ensures { table_check reader.now.words.now room result }
{
    let wanted = reader.records() as usize;
    expect(room == wanted, Refusal::Table, wanted)
}

// Kept: not by a `HeaderWord`, whose greatest number would be one below the records that there are.
fn process_right(reader: &Reader<'_>, process: u32) -> bool
    ensures { result ≡ process_right reader.now.words.now process }
{
    let body = reader.body(process);
    kind(reader.word(3 + process as usize)) == 4
        && body < reader.records()
        && Target::Behaviour.has(reader.record(body).kind())
}

/// The lowest process word that is wrong.
pub(crate) fn check_processes(reader: &Reader<'_>) -> Result<(), Fault>
    ensures { process_check reader.now.words.now result }
{
    expect_each(
        reader.processes(),
        Refusal::Process,
        3,
        |process| process_right(reader, process),
    )
}
