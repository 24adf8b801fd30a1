// The words of the records of a sheet, each held to what its record's kind allows.
ghost use Rattle.std.specs.Prelude.{◌≡◌};
ghost use Rattle.form.specs.Fields.{refers, admits, word_right, record_check};

use crate::field::{Field, Target, layout_of, value_of};
use sheet::Reader;
use words::{Fault, NONE, Refusal, TAU, expect_each, is_exception, is_number, is_observable};

const MOST_WEIGHT: u32 = 65_535;

/// Whether a record may refer to another as one of a class: only to a lower-numbered one.
fn refers(reader: &Reader<'_>, number: u32, target: Target, value: u32) -> bool
    ensures { result ≡ refers reader.now.words.now number target value }
{
    value < number && target.has(reader.record(value).kind())
}

/// Whether a field of a record may hold a value.
fn admits(reader: &Reader<'_>, number: u32, field: Field, value: u32) -> bool
    ensures { result ≡ admits reader.now.words.now number field value }
{
    match field {
        Field::Never => false,
        Field::Zero => value == 0,
        Field::Number => is_number(value),
        Field::Weight => 1 <= value && value <= MOST_WEIGHT,
        Field::Process => value < reader.processes(),
        Field::Action => value == TAU || is_observable(value),
        Field::Exception => is_exception(value),
        Field::To(target) => refers(reader, number, target, value),
        Field::Maybe(target) => value == NONE || refers(reader, number, target, value),
    }
}

/// Whether word j of a record is right.
#[tactic(auto, unfolding(crate::specs::Fields::word_right))]
fn word_right(reader: &Reader<'_>, number: u32, j: usize) -> bool
    ensures { result ≡ word_right reader.now.words.now number j }
{
    let record = reader.record(number);
    let field = layout_of(record.kind()).field(j);
    admits(reader, number, field, value_of(record, j))
}

/// The lowest word of all records that is wrong.
pub(crate) fn check_records(reader: &Reader<'_>) -> Result<(), Fault>
    ensures { record_check reader.now.words.now result }
{
    let first = 3 + reader.processes() as usize;
    expect_each(4 * reader.records(), Refusal::Record, first, |word| {
        word_right(reader, word / 4, word as usize % 4)
    })
}
