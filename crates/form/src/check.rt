// The checks of a sheet in their order.
ghost use Rattle.form.specs.WellFormed.{well_formed};

use crate::chains::{check_chains, check_repeats};
use crate::header::{check_count, check_header, check_processes, check_table};
use crate::records::check_records;
use sheet::Reader;
use words::Fault;

/// Whether the sheet, with a table of so many words beside it, is well formed; else the first fault.
pub fn check_form(reader: &Reader<'_>, room: usize) -> Result<(), Fault>
    ensures { well_formed reader.now.words.now room result }
{
    check_header(reader)?;
    check_count(reader)?;
    check_table(reader, room)?;
    check_processes(reader)?;
    check_records(reader)?;
    check_repeats(reader)?;
    check_chains(reader)
}
