// Bounds over all records of a sheet: the ceilings and the alphabet.
ghost use Rattle.std.specs.Prelude.{◌≡◌, ◌+◌};
ghost use Rattle.extent.specs.Bounds.{greatest_span, weight_by, greatest_weight, acts, knows_in, ceilings_in};

use descent::span;
use model::Model;
use part::Ceilings;
use sheet::{Reader, Step};
use words::{NONE, is_observable};

/// Room for the longest guard, assignments, deadline and place code of any behaviour.
const SIZE: usize = 128;

/// The greatest span of all behaviours.
fn greatest_span(model: &Model) -> u32
    ensures { result ≡ greatest_span model.now.words.items model.now.table.items }
{
    let numbers = 0..model.reader().records();
    numbers
        .map(|number| span(model.size(number)))
        .max()
        .unwrap_or(0)
}

/// The total weight of an act's branches.
fn step_weight(reader: &Reader<'_>, step: Step) -> u64
    ensures { result ≡ weight_by reader.now.words.now step }
{
    match step {
        Step::Act(_, first) => reader.survey(first, NONE).weight,
        _ => 0,
    }
}

/// The greatest total weight of all acts, at least 1.
fn greatest_weight(model: &Model) -> usize
    ensures { result ≡ greatest_weight model.now.words.items }
{
    let reader = model.reader();
    let numbers = 0..reader.records();
    let most = numbers
        .map(|number| step_weight(&reader, reader.step(number)))
        .max()
        .unwrap_or(0);
    most.max(1) as usize
}

/// The ceilings of a model's behaviour.
pub fn ceilings_in(model: &Model) -> Ceilings
    ensures { result ≡ ceilings_in model.now.words.items model.now.table.items }
{
    Ceilings {
        edges: 1 + greatest_span(model) as usize,
        weight: greatest_weight(model),
        size: SIZE,
    }
}

/// Whether a step is an act with an action.
fn is_act(step: Step, action: u32) -> bool
    ensures { result ≡ acts action step }
{
    matches!(step, Step::Act(own, _) if own == action)
}

/// Whether an action is observable and some act's.
pub fn knows_in(model: &Model, action: u32) -> bool
    ensures { result ≡ knows_in model.now.words.items action }
{
    let reader = model.reader();
    is_observable(action) && (0..reader.records()).any(|number| is_act(reader.step(number), action))
}
