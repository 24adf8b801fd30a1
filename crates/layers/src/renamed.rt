// A part whose actions are renamed.
ghost use Rattle.std.specs.Prelude.{◌≡◌};
ghost use Rattle.bounded.specs.Listed.{listed};
ghost use Rattle.layers.specs.Layers.{renamed_meaning};
ghost use Rattle.layers.specs.RenamedParts.{AlphabetIsImage};
ghost use Rattle.layers.specs.LayersLawful.{renamed_lawful};

use crate::renaming::Renaming;
use part::{Assignment, Ceilings, Part};
use words::{Refusal, is_observable};

/// A part with its actions renamed by a table; all else is the part's own.
#[derive(Drop)]
pub struct Renamed<P> {
    part: P,
    table: Renaming,
}

impl<P: Part> Renamed<P> {
    /// Puts a renaming over a part, which stays where it stands.
    ///
    /// An action is known if it is observable and the part knows an action that becomes it.
    pub fn new(part: P, table: Renaming) -> Renamed<P>
        ensures made { result ≡ record { part = part; table = table } }
        ensures alphabet { AlphabetIsImage (P.Part.meaning part) (listed table.pairs) }
    {
        Renamed { part, table }
    }
}

// Kept: one layer for both would need a trait with a method over any part, and a law for each question that goes on to
// the part; a line for each question is plainer.
impl<P: Part> Part for Renamed<P> {
    ghost meaning = { renamed_meaning P.Part.meaning };

    ghost lawful = { λ s. renamed_lawful (P.Part.meaning s.part) (listed s.table.pairs) s.table.valid (P.Part.lawful s.part) };

    fn ceilings(&self) -> Ceilings {
        self.part.ceilings()
    }

    fn is_done(&self) -> Result<bool, Refusal> {
        self.part.is_done()
    }

    fn knows(&self, action: u32) -> Result<bool, Refusal> {
        let own = self.part.knows(action)?;
        if !is_observable(action) {
            return Ok(false);
        }
        if own && !self.table.is_source(action) {
            return Ok(own);
        }
        for pair in self.table.pairs() {
            if pair.target == action && self.part.knows(pair.source)? {
                return Ok(true);
            }
        }
        Ok(false)
    }

    fn is_place(&self, code: &[u32]) -> Result<bool, Refusal> {
        self.part.is_place(code)
    }

    fn code_length(&self) -> Result<usize, Refusal> {
        self.part.code_length()
    }

    fn code_word(&self, item: usize) -> Result<u32, Refusal> {
        self.part.code_word(item)
    }

    fn next(&self, from: usize) -> Result<Option<usize>, Refusal> {
        self.part.next(from)
    }

    fn action(&self, id: usize) -> Result<u32, Refusal> {
        let action = self.part.action(id)?;
        Ok(self.table.image(action))
    }

    fn guard_length(&self, id: usize) -> Result<usize, Refusal> {
        self.part.guard_length(id)
    }

    fn guard_word(&self, id: usize, item: usize) -> Result<u32, Refusal> {
        self.part.guard_word(id, item)
    }

    fn deadline_length(&self, id: usize) -> Result<usize, Refusal> {
        self.part.deadline_length(id)
    }

    fn deadline_word(&self, id: usize, item: usize) -> Result<u32, Refusal> {
        self.part.deadline_word(id, item)
    }

    fn branch_count(&self, id: usize) -> Result<usize, Refusal> {
        self.part.branch_count(id)
    }

    fn weight(&self, id: usize, branch: usize) -> Result<u32, Refusal> {
        self.part.weight(id, branch)
    }

    fn assignment_count(&self, id: usize, branch: usize) -> Result<usize, Refusal> {
        self.part.assignment_count(id, branch)
    }

    fn assignment(&self, id: usize, branch: usize, item: usize) -> Result<Assignment, Refusal> {
        self.part.assignment(id, branch, item)
    }

    fn outcome_length(&self, id: usize, branch: usize) -> Result<usize, Refusal> {
        self.part.outcome_length(id, branch)
    }

    fn outcome_word(&self, id: usize, branch: usize, item: usize) -> Result<u32, Refusal> {
        self.part.outcome_word(id, branch, item)
    }
}
