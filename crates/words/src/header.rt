// The words of a header: what each must be, and the check of them all.
ghost use Rattle.std.specs.Prelude.{◌≡◌, false};
ghost use Rattle.words.specs.Checks.{lowest};
ghost use Rattle.words.specs.Words.{header_admits};
ghost use Rattle.words.specs.Headers.{header_right};

use crate::{Fault, Refusal, expect, kind, payload};

/// What a word of a header must be: its kind, and the least and the greatest number that it may give.
#[derive(Clone, Copy, PartialEq, Eq, Debug)]
pub struct HeaderWord {
    pub kind: u32,
    pub least: u32,
    pub most: u32,
}

impl HeaderWord {
    /// Whether a word is right as this word of the header.
    pub fn admits(self, word: u32) -> bool
        ensures { result ≡ header_admits self.kind self.least self.most word }
    {
        kind(word) == self.kind && self.least <= payload(word) && payload(word) <= self.most
    }
}

/// The lowest word of a header that is missing or wrong.
pub fn check_header<const N: usize>(
    words: &[u32],
    header: &[HeaderWord; N],
    refusal: Refusal,
) -> Result<(), Fault>
    ensures { lowest refusal (λ i. i) N (λ i. header_right header.now words.now i ≡ false) result }
{
    for (place, wanted) in header.iter().enumerate() {
        let right = words.get(place).is_some_and(|word| wanted.admits(*word));
        expect(right, refusal, place)?;
    }
    Ok(())
}
