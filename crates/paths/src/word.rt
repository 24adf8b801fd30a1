// What a head's word is in a place's code.
ghost use Rattle.std.specs.Prelude.{◌≡◌};
ghost use Rattle.paths.specs.CodeWords.{saying};

use crate::path::Head;
use words::CodeWord;

/// What the first word of a place's code says of the head.
impl From<Head> for CodeWord {
    ghost from_gives = { λ head said. said ≡ saying head };

    fn from(head: Head) -> CodeWord {
        match head {
            Head::Failed => CodeWord::Failed,
            Head::Behaviour(number) => CodeWord::Record(number),
        }
    }
}
