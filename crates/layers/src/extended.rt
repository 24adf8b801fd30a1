// A part that knows more actions.
ghost use Rattle.std.specs.Prelude.{◌≡◌};
ghost use Rattle.bounded.specs.Listed.{listed};
ghost use Rattle.layers.specs.ExtendedParts.{AlphabetIsAdded};
ghost use Rattle.layers.specs.Layers.{extended_meaning};
ghost use Rattle.layers.specs.LayersLawful.{extended_lawful};

use crate::extension::Extension;
use part::{Assignment, Ceilings, Part};
use words::Refusal;

/// A part that knows the actions of a table besides its own; all else is the part's own.
#[derive(Drop)]
pub struct Extended<P> {
    part: P,
    table: Extension,
}

impl<P: Part> Extended<P> {
    /// Puts an extension over a part, which stays where it stands.
    ///
    /// An action is known if the part knows it or it is an observable action of the table.
    pub fn new(part: P, table: Extension) -> Extended<P>
        ensures made { result ≡ record { part = part; table = table } }
        ensures alphabet { AlphabetIsAdded (P.Part.meaning part) (listed table.actions) }
    {
        Extended { part, table }
    }
}

// Kept: one layer for both would need a trait with a method over any part, and a law for each question that goes on to
// the part; a line for each question is plainer.
impl<P: Part> Part for Extended<P> {
    ghost meaning = { extended_meaning P.Part.meaning };

    ghost lawful = { λ s. extended_lawful (P.Part.meaning s.part) (listed s.table.actions) (P.Part.lawful s.part) };

    fn ceilings(&self) -> Ceilings {
        self.part.ceilings()
    }

    fn is_done(&self) -> Result<bool, Refusal> {
        self.part.is_done()
    }

    fn knows(&self, action: u32) -> Result<bool, Refusal> {
        let known = self.part.knows(action)?;
        Ok(known || self.table.contains(action))
    }

    fn is_place(&self, code: &[u32]) -> Result<bool, Refusal> {
        self.part.is_place(code)
    }

    fn code_length(&self) -> Result<usize, Refusal> {
        self.part.code_length()
    }

    fn code_word(&self, item: usize) -> Result<u32, Refusal> {
        self.part.code_word(item)
    }

    fn next(&self, from: usize) -> Result<Option<usize>, Refusal> {
        self.part.next(from)
    }

    fn action(&self, id: usize) -> Result<u32, Refusal> {
        self.part.action(id)
    }

    fn guard_length(&self, id: usize) -> Result<usize, Refusal> {
        self.part.guard_length(id)
    }

    fn guard_word(&self, id: usize, item: usize) -> Result<u32, Refusal> {
        self.part.guard_word(id, item)
    }

    fn deadline_length(&self, id: usize) -> Result<usize, Refusal> {
        self.part.deadline_length(id)
    }

    fn deadline_word(&self, id: usize, item: usize) -> Result<u32, Refusal> {
        self.part.deadline_word(id, item)
    }

    fn branch_count(&self, id: usize) -> Result<usize, Refusal> {
        self.part.branch_count(id)
    }

    fn weight(&self, id: usize, branch: usize) -> Result<u32, Refusal> {
        self.part.weight(id, branch)
    }

    fn assignment_count(&self, id: usize, branch: usize) -> Result<usize, Refusal> {
        self.part.assignment_count(id, branch)
    }

    fn assignment(&self, id: usize, branch: usize, item: usize) -> Result<Assignment, Refusal> {
        self.part.assignment(id, branch, item)
    }

    fn outcome_length(&self, id: usize, branch: usize) -> Result<usize, Refusal> {
        self.part.outcome_length(id, branch)
    }

    fn outcome_word(&self, id: usize, branch: usize, item: usize) -> Result<u32, Refusal> {
        self.part.outcome_word(id, branch, item)
    }
}
