// The edges where a behaviour stands.
ghost use Rattle.std.specs.Prelude.{◌≡◌, length, is_some, Err, MatchResult};
ghost use Rattle.part.specs.Automata.{edges_here, edge_here};
ghost use Rattle.part.specs.Questions.{edge_by_id, branch_of};
ghost use Rattle.behaviour.specs.Behaviours.{meaning_of, start_of, EdgeHere, BranchHere, EdgesAreTheDerivations};

use crate::behaviour::Behaviour;
use edges::{Branch, Edge, edge_of};
use extent::ceilings_in;
use model::Model;
use part::numbered;
use paths::{Code, path_to};
use words::Refusal;

impl Behaviour {
    /// The behaviour of a model, at its start: the body of the first process, without frames.
    pub fn new(model: Model) -> Behaviour
        ensures { meaning_of result ≡ start_of model }
    {
        let place = Code::start(model.reader().body(0));
        let ceilings = ceilings_in(&model);
        Behaviour {
            model,
            place,
            ceilings,
        }
    }

    /// Whether an edge has an id where the behaviour stands.
    pub(crate) fn has_edge(&self, id: usize) -> bool
        ensures { result ≡ is_some (edge_here (meaning_of self.now) id) }
    {
        path_to(&self.model, &self.place, id).is_some()
    }

    /// The edge with an id where the behaviour stands.
    pub(crate) fn edge_at(&self, id: usize) -> Result<Edge, Refusal>
        ensures { MatchResult result (EdgeHere self.now id) (λ x. edge_by_id (meaning_of self.now) id ≡ Err x) }
    {
        let Some(path) = path_to(&self.model, &self.place, id) else {
            return Err(Refusal::NoEdge);
        };
        Ok(edge_of(&self.model, path))
    }

    /// A branch of that edge.
    pub(crate) fn branch_at(&self, id: usize, branch: usize) -> Result<Branch, Refusal>
        ensures { MatchResult result (BranchHere self.now id branch) (λ x. branch_of (edge_by_id (meaning_of self.now) id) branch ≡ Err x) }
    {
        self.edge_at(id)?
            .branch(&self.model, branch)
            .ok_or(Refusal::NoBranch)
    }

    /// How many edges there are where the behaviour stands; they are exactly the derivable ones.
    pub fn edge_count(&self) -> usize
        ensures value { result ≡ length (edges_here (meaning_of self.now)) }
        ensures derivations { EdgesAreTheDerivations self.now }
    {
        numbered::edge_count(self).unwrap()
    }
}
