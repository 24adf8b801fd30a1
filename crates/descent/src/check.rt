// The checks of a sheet's descents in their order.
ghost use Rattle.std.specs.Prelude.{length, OnOk};
ghost use Rattle.descent.specs.Records.{in_reach, down_in};
ghost use Rattle.descent.specs.Sizes.{Filled};
ghost use Rattle.descent.specs.Verdicts.{descent_check, EveryBehaviourSized};

use crate::recursion::check_recursion;
use crate::sizes::{Sizes, settle};
use sheet::Reader;
use words::Fault;

/// Fills the table with the depth and the span of each behaviour, unless a process descends to itself or a limit is passed.
/// After a refusal the table holds what the check left in it.
pub fn measure(reader: &Reader<'_>, table: &mut [u32]) -> Result<(), Fault>
    ensures verdict { descent_check reader.now.words.now (in_reach reader.now.words.now table.old) result }
    ensures filled { OnOk result (Filled (down_in reader.now.words.now (in_reach reader.now.words.now table.old)) table.new) }
    ensures sized { EveryBehaviourSized reader.now.words.now (length table.old) }
{
    check_recursion(reader, table)?;
    settle(reader, table);
    let sizes = Sizes { reader, table };
    sizes.check_depths()?;
    sizes.check_spans()
}
