// The words of a place's code.
ghost use Rattle.std.specs.Prelude.{◌≡◌};
ghost use Rattle.words.specs.CodeWords.{word_of, Reads};

use crate::{kind, payload};

/// What a word of a place's code says.
#[derive(Clone, Copy, PartialEq, Eq, Debug)]
pub enum CodeWord {
    /// The place is done.
    Done,
    /// The error runs inside all frames.
    Failed,
    /// A record runs inside all frames.
    Record(u32),
    /// A record is a frame.
    Frame(u32),
    /// Two parts are joined; the length of the left one's code.
    Pair(u32),
}

/// The answer to a word that stands in no place's code.
#[derive(Clone, Copy, PartialEq, Eq, Debug)]
pub struct NoCodeWord;

// Kept: the one place where numbers of kinds become words of a code.
impl TryFrom<u32> for CodeWord {
    type Error = NoCodeWord;

    ghost try_from_gives = { Reads };

    fn try_from(word: u32) -> Result<CodeWord, NoCodeWord> {
        match (kind(word), payload(word)) {
            (8, 0) => Ok(CodeWord::Done),
            (8, 1) => Ok(CodeWord::Failed),
            (9, number) => Ok(CodeWord::Record(number)),
            (10, number) => Ok(CodeWord::Frame(number)),
            (11, length) => Ok(CodeWord::Pair(length)),
            _ => Err(NoCodeWord),
        }
    }
}

/// Of a number the payload counts.
impl From<CodeWord> for u32 {
    ghost from_gives = { λ said word. word ≡ word_of said };

    fn from(said: CodeWord) -> u32 {
        match said {
            CodeWord::Done => 0x8000_0000,
            CodeWord::Failed => 0x8000_0001,
            CodeWord::Record(number) => 0x9000_0000 + payload(number),
            CodeWord::Frame(number) => 0xA000_0000 + payload(number),
            CodeWord::Pair(length) => 0xB000_0000 + payload(length),
        }
    }
}
