// The edge of a path, and its branches.
ghost use Rattle.std.specs.Prelude.{◌≡◌, length};
ghost use Rattle.std.specs.Option.{option_map};
ghost use Rattle.std.specs.List.{slice_get};
ghost use Rattle.bounded.specs.Listed.{listed};
ghost use Rattle.sheet.specs.Layout.{urge};
ghost use Rattle.rules.specs.Descents.{path_edge};
ghost use Rattle.rules.specs.Rules.{branch_of};
ghost use Rattle.paths.specs.Paths.{path_of};
ghost use Rattle.paths.specs.Sheets.{way_at, term_at};
ghost use Rattle.edges.specs.Leaves.{branches_from};
ghost use Rattle.edges.specs.Edges.{edge_of, outcomes_of, branch_from, branch_by};

use crate::edge::{Branch, Edge};
use crate::frame::{Goal, cut, land};
use crate::leaf::{Ways, leaf_action, leaf_ways};
use model::Model;
use paths::{Head, Path};
use words::{NONE, TAU, payload};

/// A branch before it passes frames.
// Kept: a branch has these fields too, but its goal stands under the frames beside it.
#[derive(Clone, Copy)]
struct Way {
    weight: u32,
    assignments: u32,
    goal: Goal,
}

/// The edge of a path.
pub fn edge_of(model: &Model, path: Path) -> Edge
    ensures value { edge_of model.now.words.items result ≡ path_edge (term_at model.now.words.items) (urge model.now.words.items) (path_of path) }
    ensures same { result.path ≡ path }
{
    let action = leaf_action(model, path.leaf);
    if let Some(landing) = cut(model, &path.frames, action) {
        return Edge {
            action: TAU,
            path,
            ways: Ways::Lone(landing.goal),
            frames: landing.frames,
        };
    }
    Edge {
        action,
        path,
        ways: leaf_ways(model, path.leaf),
        frames: path.frames,
    }
}

/// The branch that a record says.
fn read_way(model: &Model, number: u32) -> Way
    ensures { branch_by model.now.words.items result ≡ branch_of (way_at model.now.words.items number) }
{
    let record = model.reader().record(number);
    Way {
        weight: payload(record.head),
        assignments: record.one,
        goal: if record.two == NONE {
            Goal::Done
        } else {
            Goal::At(Head::Behaviour(record.two))
        },
    }
}

/// One of the branches before they pass frames.
fn way_at(model: &Model, ways: Ways, branch: usize) -> Option<Way>
    ensures { option_map (branch_by model.now.words.items) result ≡ slice_get (branches_from model.now.words.items ways) branch }
{
    match ways {
        Ways::Nothing => None,
        Ways::Lone(goal) => (branch == 0).then_some(Way {
            weight: 1,
            assignments: NONE,
            goal,
        }),
        Ways::Chain(first) => {
            let number = model.reader().link(first, branch)?;
            Some(read_way(model, number))
        }
    }
}

impl Edge {
    /// How many branches the edge has.
    pub fn branch_count(&self, model: &Model) -> usize
        ensures { result ≡ length (outcomes_of model.now.words.items self.now) }
    {
        match self.ways {
            Ways::Nothing => 0,
            Ways::Lone(_) => 1,
            Ways::Chain(first) => model.reader().survey(first, NONE).length,
        }
    }

    /// One of the edge's branches.
    pub fn branch(&self, model: &Model, branch: usize) -> Option<Branch>
        ensures { option_map (branch_from model.now.words.items) result ≡ slice_get (outcomes_of model.now.words.items self.now) branch }
    {
        let way = way_at(model, self.ways, branch)?;
        let landing = land(model, &self.frames, way.goal);
        Some(Branch {
            weight: way.weight,
            assignments: way.assignments,
            goal: landing.goal,
            frames: landing.frames,
        })
    }
}

impl Branch {
    /// The frames around the branch's goal.
    pub fn frames(&self) -> &[u32]
        ensures { result.now ≡ listed self.now.frames }
    {
        self.frames.as_slice()
    }
}
