// Beginning and ending a list.
ghost use Rattle.std.specs.Prelude.{◌≡◌, ◌<◌, length, MatchOption};
ghost use Rattle.lists.specs.Endings.{zeroed_from, ended, counts_of, Begun};

use crate::format::Heading;
use crate::{Counts, Mark};

impl Mark {
    /// Begins a list in `words`; none where not even its header has room.
    pub fn begin(words: &[u32]) -> Option<Mark>
        ensures { MatchOption result (length words.now ≡ 0) (Begun (length words.now)) }
    {
        if words.is_empty() {
            return None;
        }
        Some(Mark { end: 1, count: 0 })
    }

    /// Ends the list: writes its header, and zeros after it.
    pub fn end(self, words: &mut [u32]) -> Counts
        ensures counts { result ≡ counts_of self }
        ensures list { words.new ≡ ended self words.old }
    {
        zero_from(words, self.end);
        if !words.is_empty() {
            words[0] = Heading::List.of(self.count);
        }
        Counts {
            edges: self.count,
            words: self.end,
        }
    }
}

impl Counts {
    /// How many edges the list has.
    pub fn edges(self) -> usize
        ensures { result ≡ self.edges }
    {
        self.edges
    }

    /// How many words the list takes, its header among them.
    pub fn words(self) -> usize
        ensures { result ≡ self.words }
    {
        self.words
    }
}

/// Makes all words from one on 0.
fn zero_from(words: &mut [u32], from: usize)
    ensures { words.new ≡ zeroed_from from words.old }
{
    // Kept: by `get_mut` nothing would be known of the words afterwards.
    if from < words.len() {
        words[from..].fill(0);
    }
}
