// What a record says: a behaviour's step, and where it descends.
ghost use Rattle.std.specs.Prelude.{◌≡◌};
ghost use Rattle.sheet.specs.Steps.{step_of, step_at, below_of, below_at};

use crate::kinds::Kind;
use crate::reader::{Reader, Record};
use words::payload;

/// A behaviour by its kind; references name records.
// Kept: `Link` is one of twelve cases; an Option around the others would be matched twice.
#[derive(Clone, Copy, PartialEq, Eq, Debug)]
pub enum Step {
    Stop,
    /// An action and the first branch, or none.
    Act(u32, u32),
    Break,
    /// An exception.
    Throw(u32),
    Alt(u32, u32),
    Seq(u32, u32),
    Loop(u32),
    /// A body and the first catch.
    Try(u32, u32),
    /// A condition and a body.
    When(u32, u32),
    /// A condition and a body.
    Urgent(u32, u32),
    /// The number of a process.
    Call(u32),
    /// A branch, an assignment or a catch: no behaviour.
    Link,
}

/// Where a record descends.
// Kept: a case of its own for what is no behaviour; an Option around it would only move that case out of the list.
#[derive(Clone, Copy, PartialEq, Eq, Debug)]
pub enum Below {
    /// It is no behaviour.
    Absent,
    Leaf,
    One(u32),
    Two(u32, u32),
}

impl Record {
    /// What the record says.
    #[tactic(auto, using(crate::proofs::Numbered::numbered), unfolding(crate::specs::Kinds::kind_named))]
    pub fn step(self) -> Step
        ensures { result ≡ step_of self }
    {
        match self.kind() {
            Some(Kind::Stop) => Step::Stop,
            Some(Kind::Act) => Step::Act(self.one, self.two),
            Some(Kind::Break) => Step::Break,
            Some(Kind::Throw) => Step::Throw(self.one),
            Some(Kind::Alt) => Step::Alt(self.one, self.two),
            Some(Kind::Seq) => Step::Seq(self.one, self.two),
            Some(Kind::Loop) => Step::Loop(self.one),
            Some(Kind::Try) => Step::Try(self.one, self.two),
            Some(Kind::When) => Step::When(self.one, self.two),
            Some(Kind::Urgent) => Step::Urgent(self.one, self.two),
            Some(Kind::Call) => Step::Call(payload(self.head)),
            Some(Kind::Branch | Kind::Assignment | Kind::Catch) | None => Step::Link,
        }
    }
}

impl Reader<'_> {
    /// What the record of a number says.
    pub fn step(&self, number: u32) -> Step
        ensures { result ≡ step_at self.now.words.now number }
    {
        self.record(number).step()
    }

    /// Where a step descends.
    fn descent(&self, step: Step) -> Below
        ensures { result ≡ below_of self.now.words.now step }
    {
        match step {
            Step::Stop | Step::Act(_, _) | Step::Break | Step::Throw(_) => Below::Leaf,
            Step::Alt(a, b) => Below::Two(a, b),
            Step::Seq(a, _) | Step::Loop(a) | Step::Try(a, _) => Below::One(a),
            Step::When(_, a) | Step::Urgent(_, a) => Below::One(a),
            Step::Call(process) => Below::One(self.body(process)),
            Step::Link => Below::Absent,
        }
    }

    /// Where the record of a number descends.
    pub fn below(&self, number: u32) -> Below
        ensures { result ≡ below_at self.now.words.now number }
    {
        self.descent(self.step(number))
    }
}
