// The headings of a list's words: what they give a number of, and the number.
ghost use Rattle.std.specs.Prelude.{◌≡◌, ◌<◌};
ghost use Rattle.words.specs.Words.{word};
ghost use Rattle.lists.specs.Format.{payloads};
ghost use Rattle.lists.specs.Headings.{kind_number};

use words::PAYLOADS;

/// What a heading gives the number of, by the kind of its word.
#[derive(Clone, Copy, PartialEq, Eq, Debug)]
pub(crate) enum Heading {
    /// Assignments that do not clash, or the words of a place's code.
    Plain = 0,
    /// Assignments that clash.
    Clash = 1,
    /// The edges of a list.
    List = 12,
    /// The conditions of a guard.
    Guard = 13,
    /// The words of a deadline.
    Deadline = 14,
    /// The branches of an edge.
    Branches = 15,
}

impl Heading {
    /// The word that gives a number.
    pub(crate) fn of(self, number: usize) -> u32
        requires { number < payloads }
        ensures { result ≡ word (kind_number self) number }
    {
        self as u32 * PAYLOADS + number as u32
    }
}
