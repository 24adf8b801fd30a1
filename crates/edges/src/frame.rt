// What frames do with an edge: a loop cuts a break, a try cuts what it catches, and what is done goes on at a seq or a loop.
ghost use Rattle.std.specs.Prelude.{◌≡◌, []};
ghost use Rattle.std.specs.Option.{option_map};
ghost use Rattle.bounded.specs.Listed.{listed};
ghost use Rattle.rules.specs.Cuts.{cut_as, cut, done_as, done_under, outcome_under};
ghost use Rattle.rules.specs.Passing.{handler_of};
ghost use Rattle.rules.specs.Terms.{role_of};
ghost use Rattle.paths.specs.Sheets.{clauses_from, term_of, term_at};
ghost use Rattle.edges.specs.Frames.{role_by, role_from, aim, standing, landed, cut_from};

use model::Model;
use paths::{Head, Stack};
use sheet::Step;
use words::{BREAK, is_exception};

/// Where an outcome is, but for its frames: done, or at a head.
// Kept: as an Option of a head it would stand inside another Option, as in `cut_at`.
#[derive(Clone, Copy)]
pub enum Goal {
    Done,
    At(Head),
}

/// Where an edge goes on after some frames, and the frames that it has not left behind.
#[derive(Clone, Copy)]
pub(crate) struct Landing {
    pub goal: Goal,
    pub frames: Stack,
}

/// What a record does as a frame.
// Kept: `Unframed` is one of four cases; an Option around the others would be matched twice.
#[derive(Clone, Copy)]
enum Role {
    /// What is done goes on with another record.
    Onward(u32),
    /// What is done starts again.
    Again,
    /// Exceptions are caught, by the chain that begins here.
    Catching(u32),
    /// It is no frame.
    Unframed,
}

/// What a step does as a frame.
fn step_role(step: Step) -> Role
    ensures { result ≡ role_by step }
{
    match step {
        Step::Seq(_, after) => Role::Onward(after),
        Step::Loop(_) => Role::Again,
        Step::Try(_, first) => Role::Catching(first),
        _ => Role::Unframed,
    }
}

/// What a record does as a frame.
fn role_of(model: &Model, number: u32) -> Role
    ensures { role_from model.now.words.items result ≡ role_of (term_at model.now.words.items number) }
{
    step_role(model.reader().step(number))
}

/// The handler of the first catch in a chain that catches an action; only exceptions are caught.
fn handler(model: &Model, first: u32, action: u32) -> Option<u32>
    ensures { result ≡ handler_of (clauses_from model.now.words.items first) action }
{
    if !is_exception(action) {
        return None;
    }
    let reader = model.reader();
    for number in reader.chain(first) {
        let clause = reader.record(number);
        if clause.one == action {
            return Some(clause.two);
        }
    }
    None
}

/// Where a frame sends an edge with an action that it cuts.
fn cut_at(model: &Model, frame: u32, action: u32) -> Option<Goal>
    ensures { option_map aim result ≡ cut_as (role_of (term_at model.now.words.items frame)) action }
{
    match role_of(model, frame) {
        Role::Again => (action == BREAK).then_some(Goal::Done),
        Role::Catching(first) => {
            let record = handler(model, first, action)?;
            Some(Goal::At(Head::Behaviour(record)))
        }
        Role::Onward(_) | Role::Unframed => None,
    }
}

/// The first of the frames that cuts an edge with an action: where it sends the edge, and the frames after it.
pub(crate) fn cut(model: &Model, frames: &Stack, action: u32) -> Option<Landing>
    ensures { option_map cut_from result ≡ Rattle.rules.specs.Cuts.cut (term_at model.now.words.items) action (listed frames.now) }
{
    for (at, frame) in frames.as_slice().iter().enumerate() {
        if let Some(goal) = cut_at(model, *frame, action) {
            return Some(Landing {
                goal,
                frames: frames.after(at + 1),
            });
        }
    }
    None
}

/// What done becomes under a frame.
fn done_at(model: &Model, frame: u32) -> Goal
    ensures { aim result ≡ done_as (role_of (term_at model.now.words.items frame)) frame }
{
    match role_of(model, frame) {
        Role::Onward(after) => Goal::At(Head::Behaviour(after)),
        Role::Again => Goal::At(Head::Behaviour(frame)),
        Role::Catching(_) | Role::Unframed => Goal::Done,
    }
}

// Kept: a loop like that of `cut`, which stops at another step of a frame; one for both would take the step as a closure.

/// Where what is done goes on under frames: at the first seq or loop among them.
fn land_done(model: &Model, frames: &Stack) -> Landing
    ensures { landed result ≡ done_under (term_at model.now.words.items) (listed frames.now) }
{
    for (at, frame) in frames.as_slice().iter().enumerate() {
        if let Goal::At(head) = done_at(model, *frame) {
            return Landing {
                goal: Goal::At(head),
                frames: frames.after(at + 1),
            };
        }
    }
    Landing {
        goal: Goal::Done,
        frames: *frames,
    }
}

/// Where an outcome is under frames.
pub(crate) fn land(model: &Model, frames: &Stack, goal: Goal) -> Landing
    ensures { landed result ≡ outcome_under (term_at model.now.words.items) (listed frames.now) (aim goal) }
{
    match goal {
        Goal::Done => land_done(model, frames),
        Goal::At(_) => Landing {
            goal,
            frames: *frames,
        },
    }
}
