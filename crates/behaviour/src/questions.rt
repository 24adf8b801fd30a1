// The questions that a behaviour answers as a part.
ghost use Rattle.behaviour.specs.Behaviours.{meaning_of};
ghost use Rattle.behaviour.specs.Law.{behaviour_lawful};

use crate::behaviour::Behaviour;
use crate::outcome::{outcome_length, outcome_word};
use extent::{is_place_in, knows_in};
use part::{Assignment, Ceilings, Part};
use words::{CodeWord, NONE, Refusal, Term, payload};

impl Part for Behaviour {
    ghost meaning = { meaning_of };

    ghost lawful = { λ s. behaviour_lawful s };

    fn ceilings(&self) -> Ceilings {
        self.ceilings
    }

    fn is_done(&self) -> Result<bool, Refusal> {
        Ok(self.place.words().first() == Some(&CodeWord::Done.into()))
    }

    fn knows(&self, action: u32) -> Result<bool, Refusal> {
        Ok(knows_in(&self.model, action))
    }

    fn is_place(&self, code: &[u32]) -> Result<bool, Refusal> {
        Ok(is_place_in(&self.model, code))
    }

    fn code_length(&self) -> Result<usize, Refusal> {
        Ok(self.place.words().len())
    }

    fn code_word(&self, item: usize) -> Result<u32, Refusal> {
        self.place.words().get(item).copied().ok_or(Refusal::NoItem)
    }

    fn next(&self, from: usize) -> Result<Option<usize>, Refusal> {
        let mut ids = from..self.ceilings.edges - 1;
        Ok(ids.find(|id| self.has_edge(*id)))
    }

    fn action(&self, id: usize) -> Result<u32, Refusal> {
        Ok(self.edge_at(id)?.action)
    }

    fn guard_length(&self, id: usize) -> Result<usize, Refusal> {
        Ok(self.edge_at(id)?.path.whens.as_slice().len())
    }

    fn guard_word(&self, id: usize, item: usize) -> Result<u32, Refusal> {
        let edge = self.edge_at(id)?;
        let mut conditions = edge.path.whens.as_slice().iter().rev();
        conditions.nth(item).copied().ok_or(Refusal::NoItem)
    }

    fn deadline_length(&self, id: usize) -> Result<usize, Refusal> {
        Ok(1 + 2 * self.edge_at(id)?.path.urgents.as_slice().len())
    }

    fn deadline_word(&self, id: usize, item: usize) -> Result<u32, Refusal> {
        let edge = self.edge_at(id)?;
        if item == 0 {
            return Ok(self.model.reader().urge());
        }
        let Some(condition) = edge.path.urgents.as_slice().get((item - 1) / 2) else {
            return Err(Refusal::NoItem);
        };
        if item % 2 == 0 {
            return Ok(Term::Or.into());
        }
        Ok(Term::Condition(*condition).into())
    }

    fn branch_count(&self, id: usize) -> Result<usize, Refusal> {
        Ok(self.edge_at(id)?.branch_count(&self.model))
    }

    fn weight(&self, id: usize, branch: usize) -> Result<u32, Refusal> {
        Ok(self.branch_at(id, branch)?.weight)
    }

    fn assignment_count(&self, id: usize, branch: usize) -> Result<usize, Refusal> {
        let found = self.branch_at(id, branch)?;
        Ok(self.model.reader().survey(found.assignments, NONE).length)
    }

    fn assignment(&self, id: usize, branch: usize, item: usize) -> Result<Assignment, Refusal> {
        let found = self.branch_at(id, branch)?;
        let reader = self.model.reader();
        let number = reader.link(found.assignments, item).ok_or(Refusal::NoItem)?;
        let record = reader.record(number);
        Ok(Assignment {
            variable: payload(record.head),
            expression: record.one,
        })
    }

    fn outcome_length(&self, id: usize, branch: usize) -> Result<usize, Refusal> {
        let found = self.branch_at(id, branch)?;
        Ok(outcome_length(&found))
    }

    fn outcome_word(&self, id: usize, branch: usize, item: usize) -> Result<u32, Refusal> {
        let found = self.branch_at(id, branch)?;
        outcome_word(&found, item).ok_or(Refusal::NoItem)
    }
}
