// The words of a deadline.
ghost use Rattle.std.specs.Prelude.{◌≡◌};
ghost use Rattle.words.specs.Terms.{term_word, Reads};

use crate::{kind, payload};

/// What a word of a deadline says. Deadlines are written in postfix order.
#[derive(Clone, Copy, PartialEq, Eq, Debug)]
pub enum Term {
    Constant(bool),
    Condition(u32),
    And,
    Or,
}

/// The answer to a word that stands in no deadline.
#[derive(Clone, Copy, PartialEq, Eq, Debug)]
pub struct NoTerm;

// Kept: the one place where numbers of kinds become words of a deadline.
impl TryFrom<u32> for Term {
    type Error = NoTerm;

    ghost try_from_gives = { Reads };

    fn try_from(word: u32) -> Result<Term, NoTerm> {
        match (kind(word), payload(word)) {
            (0, 0) => Ok(Term::Constant(false)),
            (0, 1) => Ok(Term::Constant(true)),
            (1, condition) => Ok(Term::Condition(condition)),
            (2, 0) => Ok(Term::And),
            (3, 0) => Ok(Term::Or),
            _ => Err(NoTerm),
        }
    }
}

/// Of a condition the payload counts.
impl From<Term> for u32 {
    ghost from_gives = { λ term word. word ≡ term_word term };

    fn from(term: Term) -> u32 {
        match term {
            Term::Constant(truth) => u32::from(truth),
            Term::Condition(condition) => 0x1000_0000 + payload(condition),
            Term::And => 0x2000_0000,
            Term::Or => 0x3000_0000,
        }
    }
}
