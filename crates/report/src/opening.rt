// From bytes to a model.
ghost use Rattle.std.specs.Prelude.{◌≡◌, replicate, IfOk};
ghost use Rattle.report.specs.Opening.{room_for, Opening};

use input::{check_bytes, decode};
use model::{Model, load};
use printout::Failure;
use sheet::Reader;
use std::alloc::{AllocError, Global};

/// A sheet has at most this many records.
const MOST_RECORDS: usize = 2048;

/// A work table for a sheet.
fn table_for(heap: Global, words: &[u32]) -> Result<Vec<u32>, AllocError>
    ensures { IfOk result (λ t. t.items ≡ replicate (room_for words.now) 0) }
{
    let count = (Reader::new(words).records() as usize).min(MOST_RECORDS);
    vec![in heap; 0; count]
}

/// The model of a sheet that is handed in as bytes.
pub fn open_sheet(heap: Global, bytes: &[u8]) -> Result<Model, Failure>
    ensures { Opening bytes.now result }
{
    check_bytes(bytes)?;
    let words = decode(heap, bytes)?;
    let table = table_for(heap, &words)?;
    load(words, table).map_err(|refused| Failure::Faulty(refused.fault))
}
