// From the bytes of a sheet to what is printed of it: the edges at its start, or why it was refused.
#![tactic(auto)]

ghost use Rattle.std.specs.Prelude.{◌≡◌, IfOk};
ghost use Rattle.printout.specs.Texts.{text_of};
ghost use Rattle.report.specs.Expanding.{list_room, at_start, Expanded};

mod opening;

use behaviour::Behaviour;
use model::Model;
pub use opening::open_sheet;
use printout::{explain, part_text};
use std::alloc::{AllocError, Global};

/// How many words the list of edges may take.
const LIST_ROOM: usize = 4096;

/// What is printed of a model where it starts.
fn start_text(heap: Global, model: Model) -> Result<Vec<u8>, AllocError>
    ensures { IfOk result (λ v. v.items ≡ text_of (at_start model.words.items model.table.items) list_room) }
{
    let behaviour = Behaviour::new(model);
    part_text(heap, &behaviour, LIST_ROOM)
}

/// What is printed of a sheet that is handed in as bytes.
pub fn expansion(heap: Global, bytes: &[u8]) -> Result<Vec<u8>, AllocError>
    ensures { IfOk result (λ v. Expanded bytes.now v.items) }
{
    // Kept: no plainer by `map_or_else`, which would take a closure for each case.
    match open_sheet(heap, bytes) {
        Ok(model) => start_text(heap, model),
        Err(why) => explain(heap, why),
    }
}
