// The trait of a part: what it means, the laws that it keeps, and the questions that it answers.
#![tactic(auto)]

ghost use Rattle.std.specs.Prelude.{◌≡◌};
ghost use Rattle.part.specs.Automata.{Meaning};
ghost use Rattle.part.specs.Laws.{Lawful};
ghost use Rattle.part.specs.Questions.{ceilings_of, done_of, knows_of, place_of, code_length_of, code_word_of, next_of, edge_by_id};
ghost use Rattle.part.specs.Questions.{action_of, guard_length_of, guard_word_of, deadline_length_of, deadline_word_of};
ghost use Rattle.part.specs.Questions.{branch_count_of, branch_of, weight_of, assignment_count_of, assignment_of, outcome_length_of, outcome_word_of};

use words::Refusal;

mod ids;
pub mod numbered;

pub use ids::{EdgeIds, edge_ids};

/// Bounds over all places of a part; all 0 where they are too large to be told.
// Kept: all 0 is what users are told of an oversized part, so it is no Option.
#[derive(Clone, Copy, PartialEq, Eq, Debug)]
pub struct Ceilings {
    /// One more than the edges at any place, and above every edge's id.
    pub edges: usize,
    /// The total weight of an edge's branches.
    pub weight: usize,
    /// The length of a guard, of a branch's assignments, and one more than that of a deadline or of a place's code.
    pub size: usize,
}

/// A variable and the expression that it is set to.
#[derive(Clone, Copy, PartialEq, Eq, Debug)]
pub struct Assignment {
    pub variable: u32,
    pub expression: u32,
}

/// A part of a plant: an automaton, and the place where it stands.
///
/// Questions about an edge take its id: a number below the ceiling of edges, rising in the order of the edges.
/// Some ids are vacant. An oversized part refuses every question but its ceilings.
pub trait Part {
    ghost meaning: { Self → Meaning };

    /// The ceilings; all 0 where the part is oversized.
    fn ceilings(&self) -> Ceilings
        ensures { result ≡ ceilings_of (meaning self.now) };

    /// Whether the part is done where it stands.
    fn is_done(&self) -> Result<bool, Refusal>
        ensures { result ≡ done_of (meaning self.now) };

    /// Whether an action is in the part's alphabet.
    fn knows(&self, action: u32) -> Result<bool, Refusal>
        ensures { result ≡ knows_of (meaning self.now) action };

    /// Whether words are the code of one of the part's places.
    fn is_place(&self, code: &[u32]) -> Result<bool, Refusal>
        ensures { result ≡ place_of (meaning self.now) code.now };

    /// How many words the code of the present place has.
    fn code_length(&self) -> Result<usize, Refusal>
        ensures { result ≡ code_length_of (meaning self.now) };

    /// A word of the code of the present place.
    fn code_word(&self, item: usize) -> Result<u32, Refusal>
        ensures { result ≡ code_word_of (meaning self.now) item };

    /// The least id at or after `from` at which an edge stands.
    fn next(&self, from: usize) -> Result<Option<usize>, Refusal>
        ensures { result ≡ next_of (meaning self.now) from };

    /// The action of an edge.
    fn action(&self, id: usize) -> Result<u32, Refusal>
        ensures { result ≡ action_of (edge_by_id (meaning self.now) id) };

    /// How many conditions an edge's guard has.
    fn guard_length(&self, id: usize) -> Result<usize, Refusal>
        ensures { result ≡ guard_length_of (edge_by_id (meaning self.now) id) };

    /// A condition of an edge's guard.
    fn guard_word(&self, id: usize, item: usize) -> Result<u32, Refusal>
        ensures { result ≡ guard_word_of (edge_by_id (meaning self.now) id) item };

    /// How many words an edge's deadline has.
    fn deadline_length(&self, id: usize) -> Result<usize, Refusal>
        ensures { result ≡ deadline_length_of (edge_by_id (meaning self.now) id) };

    /// A word of an edge's deadline.
    fn deadline_word(&self, id: usize, item: usize) -> Result<u32, Refusal>
        ensures { result ≡ deadline_word_of (edge_by_id (meaning self.now) id) item };

    /// How many branches an edge has.
    fn branch_count(&self, id: usize) -> Result<usize, Refusal>
        ensures { result ≡ branch_count_of (edge_by_id (meaning self.now) id) };

    /// The weight of a branch.
    fn weight(&self, id: usize, branch: usize) -> Result<u32, Refusal>
        ensures { result ≡ weight_of (branch_of (edge_by_id (meaning self.now) id) branch) };

    /// How many assignments a branch makes.
    fn assignment_count(&self, id: usize, branch: usize) -> Result<usize, Refusal>
        ensures { result ≡ assignment_count_of (branch_of (edge_by_id (meaning self.now) id) branch) };

    /// An assignment of a branch.
    fn assignment(&self, id: usize, branch: usize, item: usize) -> Result<Assignment, Refusal>
        ensures { result ≡ assignment_of (branch_of (edge_by_id (meaning self.now) id) branch) item };

    /// How many words the code of a branch's outcome has; 0 where it lies beyond.
    fn outcome_length(&self, id: usize, branch: usize) -> Result<usize, Refusal>
        ensures { result ≡ outcome_length_of (branch_of (edge_by_id (meaning self.now) id) branch) };

    /// A word of the code of a branch's outcome.
    fn outcome_word(&self, id: usize, branch: usize, item: usize) -> Result<u32, Refusal>
        ensures { result ≡ outcome_word_of (branch_of (edge_by_id (meaning self.now) id) branch) item };

    ghost lawful: { (s : Self) → Lawful (meaning s) };
}
