// The edge that a head has of its own, before it passes frames.
ghost use Rattle.std.specs.Prelude.{◌≡◌};
ghost use Rattle.rules.specs.Descents.{leaf_action, leaf_branches};
ghost use Rattle.paths.specs.Paths.{head_of};
ghost use Rattle.paths.specs.Sheets.{term_at};
ghost use Rattle.edges.specs.Leaves.{action_by, ways_by, branches_from};

use crate::frame::Goal;
use model::Model;
use paths::Head;
use sheet::Step;
use words::{BREAK, ERROR, NONE, TAU};

/// The branches of an edge, before it passes frames.
// Kept: `Nothing` is one of three cases; an Option around the other two would be matched twice.
#[derive(Clone, Copy)]
pub(crate) enum Ways {
    Nothing,
    /// One branch of weight 1, without assignments.
    Lone(Goal),
    /// The branches of a chain.
    Chain(u32),
}

/// The action of a step that has an edge of its own.
fn step_action(step: Step) -> u32
    ensures { result ≡ action_by step }
{
    match step {
        Step::Act(action, _) => action,
        Step::Break => BREAK,
        Step::Throw(exception) => exception,
        _ => TAU,
    }
}

/// The branches of a step that has an edge of its own.
fn step_ways(step: Step) -> Ways
    ensures { result ≡ ways_by step }
{
    match step {
        Step::Act(_, first) => {
            if first == NONE {
                return Ways::Lone(Goal::Done);
            }
            Ways::Chain(first)
        }
        Step::Break => Ways::Lone(Goal::Done),
        Step::Throw(_) => Ways::Lone(Goal::At(Head::Failed)),
        _ => Ways::Nothing,
    }
}

/// The action of a head's own edge.
pub(crate) fn leaf_action(model: &Model, leaf: Head) -> u32
    ensures { result ≡ leaf_action (term_at model.now.words.items) (head_of leaf) }
{
    match leaf {
        Head::Failed => ERROR,
        Head::Behaviour(number) => step_action(model.reader().step(number)),
    }
}

/// The branches of a head's own edge.
pub(crate) fn leaf_ways(model: &Model, leaf: Head) -> Ways
    ensures { branches_from model.now.words.items result ≡ leaf_branches (term_at model.now.words.items) (head_of leaf) }
{
    match leaf {
        Head::Failed => Ways::Lone(Goal::At(Head::Failed)),
        Head::Behaviour(number) => step_ways(model.reader().step(number)),
    }
}
