// What a descent finds on its way to an edge.
ghost use Rattle.std.specs.Prelude.{◌≡◌};
ghost use Rattle.std.specs.Option.{option_map};
ghost use Rattle.rules.specs.Descents.{arriving};
ghost use Rattle.paths.specs.Paths.{head_of, found};
ghost use Rattle.paths.specs.Additions.{Roomy, with_addition};

use crate::stack::Stack;

// Kept: not an Option of a record, since the error is something that runs, not the lack of it.

/// What runs inside all frames: a record, or the error that is left where nobody caught an exception.
#[derive(Clone, Copy)]
pub enum Head {
    Failed,
    Behaviour(u32),
}

/// The way to an edge: the head that has it, the frames around that, innermost first, and the conditions of the whens and
/// of the urgents on the way, innermost first.
#[derive(Clone, Copy)]
pub struct Path {
    pub leaf: Head,
    pub frames: Stack,
    pub whens: Stack,
    pub urgents: Stack,
}

/// The path to a head that has one edge, in slot 0.
pub(crate) fn arriving(leaf: Head, id: usize) -> Option<Path>
    ensures { found result ≡ Rattle.rules.specs.Descents.arriving (head_of leaf) id }
{
    if id != 0 {
        return None;
    }
    Some(Path {
        leaf,
        frames: Stack::new(),
        whens: Stack::new(),
        urgents: Stack::new(),
    })
}

/// What a record adds to the paths of its body.
#[derive(Clone, Copy)]
pub(crate) enum Addition {
    /// The record itself, as a frame.
    Frame(u32),
    /// The condition of a when.
    When(u32),
    /// The condition of an urgent.
    Urgent(u32),
}

/// The path that was found, if any, with what a record above it adds.
// Kept: no `?` on a path, which is large: it would be copied once more for each.
pub(crate) fn under(addition: Addition, mut lower: Option<Path>) -> Option<Path>
    requires { Roomy lower }
    ensures { found result ≡ option_map (with_addition addition) (found lower) }
{
    if let Some(path) = &mut lower {
        match addition {
            Addition::Frame(number) => path.frames.push(number),
            Addition::When(condition) => path.whens.push(condition),
            Addition::Urgent(condition) => path.urgents.push(condition),
        }
    }
    lower
}
