// What is read of a loaded model.
ghost use Rattle.std.specs.Prelude.{◌≡◌, slice_index};

use crate::Model;
use sheet::Reader;
use words::word_at;

impl Model {
    /// A reader over the sheet's words.
    pub fn reader(&self) -> Reader<'_>
        ensures { result.words.now ≡ self.now.words.items }
    {
        Reader::new(&self.words)
    }

    /// The work table's word for a record, 0 where there is none.
    pub fn size(&self, number: u32) -> u32
        ensures { result ≡ slice_index self.now.table.items number }
    {
        word_at(&self.table, number as usize)
    }
}
