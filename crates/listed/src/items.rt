// Items of one kind that stand one behind the other among the words of a list.
ghost use Rattle.std.specs.Prelude.{◌≡◌, ◌<◌};
ghost use Rattle.std.specs.Iterator.{YieldsFirstBy, item_count};
ghost use Rattle.std.specs.List.{slice_get};
ghost use Rattle.std.specs.Option.{option_map};
ghost use Rattle.lists.specs.Format.{payloads};
ghost use Rattle.listed.specs.Standing.{standing};

use crate::item::{Kind, Listed};
use std::marker::PhantomData;

/// The items that are still to be read.
#[derive(Drop)]
pub struct Items<'a, K> {
    left: usize,
    words: &'a [u32],
    kind: PhantomData<K>,
    ghost counted: { left < payloads },
}

impl<'a, K> Items<'a, K> {
    /// So many items at the front of some words.
    pub(crate) fn new(left: usize, words: &'a [u32]) -> Items<'a, K>
        requires { left < payloads }
        ensures left { result.left ≡ left }
        ensures words { result.words.now ≡ words.now }
    {
        Items {
            left,
            words,
            kind: PhantomData,
        }
    }
}

impl<'a, K: Kind> Items<'a, K> {
    /// The item that has a number, if there are so many; what comes behind it is not looked at.
    pub(crate) fn item(self, number: usize) -> Option<Listed<'a, K>>
        ensures { option_map (λ x. (x.later, x.words.now)) result ≡ slice_get (standing K.after self.entry.left self.entry.words.now) number }
    {
        if self.left <= number {
            return None;
        }
        let mut words = self.words;
        // Kept: `nth` would look at what comes behind the item too, and at all items where there are not so many.
        for _passed in 0..number {
            words = K::behind(words);
        }
        Some(Listed::new(self.left - number - 1, words))
    }
}

impl<'a, K: Kind> Iterator for Items<'a, K> {
    type Item = Listed<'a, K>;

    ghost next_gives = { YieldsFirstBy (λ x. (x.later, x.words.now)) (λ s. standing K.after s.left s.words.now) };

    ghost remaining = { item_count (λ s. standing K.after s.left s.words.now) };

    fn next(&mut self) -> Option<Listed<'a, K>> {
        let later = self.left.checked_sub(1)?;
        let words = self.words;
        self.left = later;
        self.words = K::behind(words);
        Some(Listed::new(later, words))
    }
}
