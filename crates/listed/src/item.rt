// One of the items that stand one behind the other among the words of a list.
ghost use Rattle.std.specs.Prelude.{◌≡◌, ℕ, List};
ghost use Rattle.listed.specs.Listed.{Next};

use std::marker::PhantomData;

/// A kind of items, which knows where an item ends.
pub trait Kind {
    ghost after: { List ℕ → List ℕ };

    /// What comes behind the item at the front of some words.
    fn behind(words: &[u32]) -> &[u32]
        ensures { result.now ≡ after words.now };
}

/// An item, and how many of its kind come after it.
#[derive(Clone, Copy)]
pub struct Listed<'a, K> {
    later: usize,
    /// Its words, and all that come after them.
    words: &'a [u32],
    kind: PhantomData<K>,
}

impl<'a, K> Listed<'a, K> {
    pub(crate) fn new(later: usize, words: &'a [u32]) -> Listed<'a, K>
        ensures later { result.later ≡ later }
        ensures words { result.words.now ≡ words.now }
    {
        Listed {
            later,
            words,
            kind: PhantomData,
        }
    }

    /// Its words, and all that come after them.
    pub(crate) fn words(self) -> &'a [u32]
        ensures { result.now ≡ self.entry.words.now }
    {
        self.words
    }
}

impl<'a, K: Kind> Listed<'a, K> {
    /// The item after this one.
    pub fn next(self) -> Option<Listed<'a, K>>
        ensures { Next K.after self.entry result }
    {
        let later = self.later.checked_sub(1)?;
        Some(Listed::new(later, K::behind(self.words)))
    }
}
