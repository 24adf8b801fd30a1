// Loading: a sheet's words and a work table become a model, or are given back with the fault.
ghost use Rattle.std.specs.Prelude.{◌≡◌, length, OnOk};
ghost use Rattle.words.specs.Checks.{Single};
ghost use Rattle.sheet.specs.Layout.{records};
ghost use Rattle.descent.specs.Records.{down_in};
ghost use Rattle.descent.specs.Sizes.{Filled};
ghost use Rattle.model.specs.Verdict.{verdict, Loading};

use crate::{Model, Refused};
use descent::measure;
use form::check_form;
use sheet::Reader;
use words::Fault;

/// The verdict on a sheet; where it is good, the table is filled.
fn judge(words: &[u32], table: &mut [u32]) -> Result<(), Fault>
    ensures verdict { verdict words.now (length table.old) result }
    ensures filled { OnOk result (Filled (down_in words.now (records words.now)) table.new) }
{
    let reader = Reader::new(words);
    check_form(&reader, table.len())?;
    measure(&reader, table)
}

/// Loads a sheet with its work table, or gives both back with the fault, the table all 0.
pub fn load(words: Vec<u32>, mut table: Vec<u32>) -> Result<Model, Refused>
    ensures loading { Loading words.items (length table.items) result }
    ensures single { Single (verdict words.items (length table.items)) }
{
    // Kept: both cases take the words and the table, so a closure for either would have to own them.
    match judge(&words, &mut table) {
        Ok(()) => Ok(Model { words, table }),
        Err(fault) => {
            table.fill(0);
            Err(Refused {
                fault,
                words,
                table,
            })
        }
    }
}
