// Reading starts from the counts of a list, which only ending the list gives.
ghost use Rattle.std.specs.Prelude.{◌≡◌, ℕ, ◌<◌, List as Row, ◌++◌, length};
ghost use Rattle.std.specs.List.{AllByRecursion};
ghost use Rattle.words.specs.Edges.{Edge};
ghost use Rattle.lists.specs.Format.{list_words, payloads};
ghost use Rattle.lists.specs.Reading.{edges_in, Countable};

use crate::Counts;

/// An ended list.
#[derive(Clone, Copy)]
pub struct List<'a> {
    words: &'a [u32],
}

impl Counts {
    /// Opens the words of an ended list for reading. A list determines its edges: they are what is read.
    pub fn read(self, words: &[u32]) -> List<'_>
        ensures opened { result.words.now ≡ words.now }
        ensures determined { (es : Row (Edge (Row ℕ))) (rest : Row ℕ) → AllByRecursion Countable es → length es < payloads
            → words.now ≡ list_words es ++ rest → edges_in result.words.now ≡ es }
    {
        List { words }
    }
}

impl<'a> List<'a> {
    /// The words of the list.
    pub fn words(&self) -> &'a [u32]
        ensures { result.now ≡ self.now.words.now }
    {
        self.words
    }
}
