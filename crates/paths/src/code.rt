// The code of a place: one word for its head and one for each frame.
ghost use Rattle.std.specs.Prelude.{◌≡◌, [], ◌∷◌};
ghost use Rattle.words.specs.Words.{record_word, payload_of};
ghost use Rattle.paths.specs.Paths.{code_words};

use bounded::Bounded;
use words::CodeWord;

/// The code of a place: at most 65 words, one for its head and one for each of 64 frames.
#[derive(Clone, Copy)]
pub struct Code {
    words: Bounded<u32, 65>,
}

impl Code {
    /// The code of a record without frames; of the record's number the payload counts.
    pub fn start(number: u32) -> Code
        ensures { code_words result ≡ record_word (payload_of number) ∷ [] }
    {
        let mut words = Bounded::new();
        words.push(CodeWord::Record(number).into());
        Code { words }
    }

    /// The words.
    pub fn words(&self) -> &[u32]
        ensures { result.now ≡ code_words self.now }
    {
        self.words.as_slice()
    }
}
