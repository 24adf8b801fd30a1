// A behaviour: a model, and the place where it stands.
ghost use Rattle.std.specs.Prelude.{◌≡◌, true};
ghost use Rattle.paths.specs.Paths.{code_words};
ghost use Rattle.paths.specs.Places.{is_place};
ghost use Rattle.extent.specs.Bounds.{ceilings_in};

use model::Model;
use part::Ceilings;
use paths::Code;

/// The part that a model describes. It begins at the body of the first process.
#[derive(Drop)]
pub struct Behaviour {
    pub(crate) model: Model,
    pub(crate) place: Code,
    pub(crate) ceilings: Ceilings,
    ghost stands: { is_place model.words.items (code_words place) ≡ true },
    ghost told: { ceilings ≡ ceilings_in model.words.items model.table.items },
}
