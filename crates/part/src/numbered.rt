// Questions about a part's edges by number: an edge's position in the list of edges.
//
// They are written once for all parts: the number is turned into an id by going from one occupied id to the next.
// Kept: a function for each question, since one that takes the question as a closure would make each call longer.
ghost use Rattle.std.specs.Prelude.{◌≡◌, Err, MatchResult};
ghost use Rattle.part.specs.Questions.{edge_by_id, edge_by_number, edge_count_of, id_of};
ghost use Rattle.part.specs.Questions.{action_of, guard_length_of, guard_word_of, deadline_length_of, deadline_word_of};
ghost use Rattle.part.specs.Questions.{branch_count_of, branch_of, weight_of, assignment_count_of, assignment_of, outcome_length_of, outcome_word_of};

use crate::{Assignment, Part, edge_ids};
use words::Refusal;

/// How many edges there are where the part stands.
pub fn edge_count<P: Part>(part: &P) -> Result<usize, Refusal>
    ensures { result ≡ edge_count_of (P.Part.meaning part.now) }
{
    Ok(edge_ids(part)?.count())
}

/// The id of the edge with a number.
pub fn id<P: Part>(part: &P, number: usize) -> Result<usize, Refusal>
    ensures answer { result ≡ id_of (P.Part.meaning part.now) number }
    ensures same { MatchResult result
        (λ id. edge_by_number (P.Part.meaning part.now) number ≡ edge_by_id (P.Part.meaning part.now) id)
        (λ e. edge_by_number (P.Part.meaning part.now) number ≡ Err e) }
{
    edge_ids(part)?.nth(number).ok_or(Refusal::NoEdge)
}

/// The action of the edge with a number.
pub fn action<P: Part>(part: &P, number: usize) -> Result<u32, Refusal>
    ensures { result ≡ action_of (edge_by_number (P.Part.meaning part.now) number) }
{
    let id = id(part, number)?;
    part.action(id)
}

/// How many conditions the guard of the edge with a number has.
pub fn guard_length<P: Part>(part: &P, number: usize) -> Result<usize, Refusal>
    ensures { result ≡ guard_length_of (edge_by_number (P.Part.meaning part.now) number) }
{
    let id = id(part, number)?;
    part.guard_length(id)
}

/// A condition of that guard.
pub fn guard_word<P: Part>(part: &P, number: usize, item: usize) -> Result<u32, Refusal>
    ensures { result ≡ guard_word_of (edge_by_number (P.Part.meaning part.now) number) item }
{
    let id = id(part, number)?;
    part.guard_word(id, item)
}

/// How many words the deadline of the edge with a number has.
pub fn deadline_length<P: Part>(part: &P, number: usize) -> Result<usize, Refusal>
    ensures { result ≡ deadline_length_of (edge_by_number (P.Part.meaning part.now) number) }
{
    let id = id(part, number)?;
    part.deadline_length(id)
}

/// A word of that deadline.
pub fn deadline_word<P: Part>(part: &P, number: usize, item: usize) -> Result<u32, Refusal>
    ensures { result ≡ deadline_word_of (edge_by_number (P.Part.meaning part.now) number) item }
{
    let id = id(part, number)?;
    part.deadline_word(id, item)
}

/// How many branches the edge with a number has.
pub fn branch_count<P: Part>(part: &P, number: usize) -> Result<usize, Refusal>
    ensures { result ≡ branch_count_of (edge_by_number (P.Part.meaning part.now) number) }
{
    let id = id(part, number)?;
    part.branch_count(id)
}

/// The weight of one of its branches.
pub fn weight<P: Part>(part: &P, number: usize, branch: usize) -> Result<u32, Refusal>
    ensures { result ≡ weight_of (branch_of (edge_by_number (P.Part.meaning part.now) number) branch) }
{
    let id = id(part, number)?;
    part.weight(id, branch)
}

/// How many assignments the branch makes.
pub fn assignment_count<P: Part>(part: &P, number: usize, branch: usize) -> Result<usize, Refusal>
    ensures { result ≡ assignment_count_of (branch_of (edge_by_number (P.Part.meaning part.now) number) branch) }
{
    let id = id(part, number)?;
    part.assignment_count(id, branch)
}

/// One of its assignments.
pub fn assignment<P: Part>(
    part: &P,
    number: usize,
    branch: usize,
    item: usize,
) -> Result<Assignment, Refusal>
    ensures { result ≡ assignment_of (branch_of (edge_by_number (P.Part.meaning part.now) number) branch) item }
{
    let id = id(part, number)?;
    part.assignment(id, branch, item)
}

/// How many words the code of its outcome has; 0 where it lies beyond.
pub fn outcome_length<P: Part>(part: &P, number: usize, branch: usize) -> Result<usize, Refusal>
    ensures { result ≡ outcome_length_of (branch_of (edge_by_number (P.Part.meaning part.now) number) branch) }
{
    let id = id(part, number)?;
    part.outcome_length(id, branch)
}

/// A word of the code of its outcome.
pub fn outcome_word<P: Part>(
    part: &P,
    number: usize,
    branch: usize,
    item: usize,
) -> Result<u32, Refusal>
    ensures { result ≡ outcome_word_of (branch_of (edge_by_number (P.Part.meaning part.now) number) branch) item }
{
    let id = id(part, number)?;
    part.outcome_word(id, branch, item)
}
