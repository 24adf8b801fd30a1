// What each word of a record may hold, by the record's kind.
ghost use Rattle.std.specs.Prelude.{◌≡◌, ℕ};
ghost use Rattle.words.specs.Words.{kind_of};
ghost use Rattle.sheet.specs.Kinds.{kind_named};
ghost use Rattle.form.specs.Fields.{belongs, layout_of, field_of, value_of};

use sheet::{Kind, Record};
use words::payload;

/// A class of records that a reference may name.
#[derive(Clone, Copy)]
pub(crate) enum Target {
    Behaviour,
    Branch,
    Assignment,
    Catch,
}

/// What one word of a record may hold.
// Kept: `Never` is one of nine cases, and the other words of such a record are judged too.
#[derive(Clone, Copy)]
pub(crate) enum Field {
    /// Nothing: the record has a kind that no record has.
    Never,
    Zero,
    /// A variable, an expression or a condition.
    Number,
    Weight,
    Process,
    /// Tau or an observable action.
    Action,
    Exception,
    /// A reference.
    To(Target),
    /// A reference or none.
    Maybe(Target),
}

/// What the words of a kind of record may hold.
// Kept: four named fields, not an array, since the definitions that are promised speak of them by name.
#[derive(Clone, Copy)]
pub(crate) struct Layout {
    pub payload: Field,
    pub one: Field,
    pub two: Field,
    pub three: Field,
}

impl Target {
    /// Whether records of a kind are in the class.
    #[tactic(auto, using(sheet::proofs::Numbered::numbered), unfolding(sheet::specs::Kinds::kind_named))]
    pub(crate) fn has(self, kind: Option<Kind>) -> bool
        ensures { (head : ℕ) → kind ≡ kind_named head → result ≡ belongs self (kind_of head) }
    {
        match kind {
            Some(Kind::Branch) => matches!(self, Target::Branch),
            Some(Kind::Assignment) => matches!(self, Target::Assignment),
            Some(Kind::Catch) => matches!(self, Target::Catch),
            Some(_) => matches!(self, Target::Behaviour),
            None => false,
        }
    }
}

const BEHAVIOUR: Field = Field::To(Target::Behaviour);

fn row(payload: Field, one: Field, two: Field, three: Field) -> Layout
    ensures { result ≡ Rattle.form.specs.Fields.row payload one two three }
{
    Layout {
        payload,
        one,
        two,
        three,
    }
}

/// The layout of a kind of record.
#[tactic(auto, using(sheet::proofs::Numbered::numbered), unfolding(sheet::specs::Kinds::kind_named))]
pub(crate) fn layout_of(kind: Option<Kind>) -> Layout
    ensures { (head : ℕ) → kind ≡ kind_named head → result ≡ layout_of (kind_of head) }
{
    let zero = Field::Zero;
    match kind {
        Some(Kind::Stop | Kind::Break) => row(zero, zero, zero, zero),
        Some(Kind::Act) => row(zero, Field::Action, Field::Maybe(Target::Branch), zero),
        Some(Kind::Branch) => row(
            Field::Weight,
            Field::Maybe(Target::Assignment),
            Field::Maybe(Target::Behaviour),
            Field::Maybe(Target::Branch),
        ),
        Some(Kind::Assignment) => row(
            Field::Number,
            Field::Number,
            zero,
            Field::Maybe(Target::Assignment),
        ),
        Some(Kind::Throw) => row(zero, Field::Exception, zero, zero),
        Some(Kind::Alt | Kind::Seq) => row(zero, BEHAVIOUR, BEHAVIOUR, zero),
        Some(Kind::Loop) => row(zero, BEHAVIOUR, zero, zero),
        Some(Kind::Try) => row(zero, BEHAVIOUR, Field::To(Target::Catch), zero),
        Some(Kind::Catch) => row(
            zero,
            Field::Exception,
            BEHAVIOUR,
            Field::Maybe(Target::Catch),
        ),
        Some(Kind::When | Kind::Urgent) => row(zero, Field::Number, BEHAVIOUR, zero),
        Some(Kind::Call) => row(Field::Process, zero, zero, zero),
        None => row(Field::Never, zero, zero, zero),
    }
}

impl Layout {
    /// The field of word j.
    pub(crate) fn field(self, j: usize) -> Field
        ensures { result ≡ field_of self j }
    {
        match j {
            0 => self.payload,
            1 => self.one,
            2 => self.two,
            _ => self.three,
        }
    }
}

/// The value that the field of word j of a record holds: of the head, its payload.
pub(crate) fn value_of(record: Record, j: usize) -> u32
    ensures { result ≡ value_of «record» j }
{
    match j {
        0 => payload(record.head),
        1 => record.one,
        2 => record.two,
        _ => record.three,
    }
}
