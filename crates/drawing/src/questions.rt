// The questions that a drawing answers as a part.
ghost use Rattle.drawing.specs.Drawings.{meaning_of};
ghost use Rattle.drawing.specs.Law.{drawing_lawful};

use crate::alphabet::in_alphabet;
use crate::drawing::Drawing;
use crate::items::item_of;
use crate::places::{is_done, is_place_word};
use part::{Assignment, Ceilings, Part};
use words::Refusal;

/// The code of a place is one word.
const CODE_LENGTH: usize = 1;

/// So is a deadline.
const DEADLINE_LENGTH: usize = 1;

/// An edge has one branch, of weight 1 and without assignments.
const BRANCHES: usize = 1;

const WEIGHT: u32 = 1;

/// A branch always leads to a place, which is told by its code.
const OUTCOME_LENGTH: usize = CODE_LENGTH;

impl Part for Drawing {
    ghost meaning = { meaning_of };

    ghost lawful = { λ s. drawing_lawful s };

    fn ceilings(&self) -> Ceilings {
        self.ceilings
    }

    fn is_done(&self) -> Result<bool, Refusal> {
        Ok(is_done(self.place))
    }

    fn knows(&self, action: u32) -> Result<bool, Refusal> {
        Ok(in_alphabet(&self.table(), action))
    }

    fn is_place(&self, code: &[u32]) -> Result<bool, Refusal> {
        match code {
            [word] => Ok(is_place_word(&self.table(), *word)),
            _ => Ok(false),
        }
    }

    fn code_length(&self) -> Result<usize, Refusal> {
        Ok(CODE_LENGTH)
    }

    fn code_word(&self, item: usize) -> Result<u32, Refusal> {
        item_of(&[self.place], item)
    }

    fn next(&self, from: usize) -> Result<Option<usize>, Refusal> {
        Ok((from < self.rows.len()).then_some(from))
    }

    fn action(&self, id: usize) -> Result<u32, Refusal> {
        let row = self.row_at(id)?;
        Ok(row.action)
    }

    fn guard_length(&self, id: usize) -> Result<usize, Refusal> {
        let row = self.row_at(id)?;
        Ok(row.guard().len())
    }

    fn guard_word(&self, id: usize, item: usize) -> Result<u32, Refusal> {
        let row = self.row_at(id)?;
        item_of(row.guard(), item)
    }

    fn deadline_length(&self, id: usize) -> Result<usize, Refusal> {
        self.row_at(id)?;
        Ok(DEADLINE_LENGTH)
    }

    fn deadline_word(&self, id: usize, item: usize) -> Result<u32, Refusal> {
        let row = self.row_at(id)?;
        item_of(&[row.deadline], item)
    }

    fn branch_count(&self, id: usize) -> Result<usize, Refusal> {
        self.row_at(id)?;
        Ok(BRANCHES)
    }

    fn weight(&self, id: usize, branch: usize) -> Result<u32, Refusal> {
        self.branch_at(id, branch)?;
        Ok(WEIGHT)
    }

    fn assignment_count(&self, id: usize, branch: usize) -> Result<usize, Refusal> {
        self.branch_at(id, branch)?;
        Ok(0)
    }

    fn assignment(&self, id: usize, branch: usize, _item: usize) -> Result<Assignment, Refusal> {
        self.branch_at(id, branch)?;
        Err(Refusal::NoItem)
    }

    fn outcome_length(&self, id: usize, branch: usize) -> Result<usize, Refusal> {
        self.branch_at(id, branch)?;
        Ok(OUTCOME_LENGTH)
    }

    fn outcome_word(&self, id: usize, branch: usize, item: usize) -> Result<u32, Refusal> {
        let row = self.branch_at(id, branch)?;
        item_of(&[row.outcome], item)
    }
}
