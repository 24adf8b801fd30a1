// How the words of a list are spelled: a letter, and a number where the kind of word has one.
ghost use Rattle.std.specs.Prelude.{◌≡◌, ◌++◌, decimal};
ghost use Rattle.lines.specs.Letters.{action_of, action_text, term_of, term_text, code_word_of, code_word_text};
ghost use Rattle.lines.specs.Printing.{Puts};

use crate::line::{Line, Spell};
use words::{CodeWord, Refusal, Term, kind, payload};

/// What an edge does.
#[derive(Clone, Copy)]
pub(crate) enum Action {
    Tau,
    Patient(u32),
    Impatient(u32),
    Exception(u32),
    Break,
    Error,
}

// Kept: numbers of kinds, since a line spells every word, also one that is no action.
impl From<u32> for Action {
    ghost from_gives = { λ word action. action ≡ action_of word };

    fn from(word: u32) -> Action {
        match kind(word) {
            0 => Action::Tau,
            1 => Action::Patient(payload(word)),
            2 => Action::Impatient(payload(word)),
            3 => Action::Exception(payload(word)),
            4 => Action::Break,
            _ => Action::Error,
        }
    }
}

/// A word of a deadline; whatever is none counts as an "or".
// Kept: numbers of kinds, and not `Term::try_from`, since a line spells every word.
pub(crate) fn term(word: u32) -> Term
    ensures { result ≡ term_of word }
{
    match kind(word) {
        0 => Term::Constant(payload(word) != 0),
        1 => Term::Condition(payload(word)),
        2 => Term::And,
        _ => Term::Or,
    }
}

/// A word of a place's code; whatever is none counts as a pair.
// Kept: numbers of kinds, and not `CodeWord::try_from`, since a line spells every word.
pub(crate) fn code_word(word: u32) -> CodeWord
    ensures { result ≡ code_word_of word }
{
    match kind(word) {
        8 if payload(word) == 0 => CodeWord::Done,
        8 => CodeWord::Failed,
        9 => CodeWord::Record(payload(word)),
        10 => CodeWord::Frame(payload(word)),
        _ => CodeWord::Pair(payload(word)),
    }
}

/// Puts a letter and a number.
fn put_numbered(line: &mut Line<'_>, letter: &[u8], number: u32) -> Result<(), Refusal>
    ensures { Puts line.old (letter.now ++ decimal number) result line.new }
{
    line.put(letter)?;
    line.put_number(number)
}

impl Spell for Action {
    ghost text = { action_text };

    fn spell(&self, line: &mut Line<'_>) -> Result<(), Refusal> {
        match *self {
            Action::Tau => line.put(b"t"),
            Action::Patient(number) => put_numbered(line, b"p", number),
            Action::Impatient(number) => put_numbered(line, b"i", number),
            Action::Exception(number) => put_numbered(line, b"x", number),
            Action::Break => line.put(b"b"),
            Action::Error => line.put(b"e"),
        }
    }
}

impl Spell for Term {
    ghost text = { term_text };

    fn spell(&self, line: &mut Line<'_>) -> Result<(), Refusal> {
        match *self {
            Term::Constant(false) => line.put(b"F"),
            Term::Constant(true) => line.put(b"T"),
            Term::Condition(number) => put_numbered(line, b"c", number),
            Term::And => line.put(b"&"),
            Term::Or => line.put(b"|"),
        }
    }
}

impl Spell for CodeWord {
    ghost text = { code_word_text };

    fn spell(&self, line: &mut Line<'_>) -> Result<(), Refusal> {
        match *self {
            CodeWord::Done => line.put(b"."),
            CodeWord::Failed => line.put(b"!"),
            CodeWord::Record(number) => put_numbered(line, b"n", number),
            CodeWord::Frame(number) => put_numbered(line, b"/", number),
            CodeWord::Pair(number) => put_numbered(line, b"*", number),
        }
    }
}
