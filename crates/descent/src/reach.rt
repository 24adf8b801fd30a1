// Which records are looked at.
ghost use Rattle.std.specs.Prelude.{◌≡◌};
ghost use Rattle.descent.specs.Records.{in_reach};

use sheet::Reader;

/// How many records the header names and the table has a word for.
pub(crate) fn in_reach(reader: &Reader<'_>, table: &[u32]) -> u32
    ensures { result ≡ in_reach reader.now.words.now table.now }
{
    (reader.records() as usize).min(table.len()) as u32
}
