// Chains of branches, assignments and catches.
ghost use Rattle.std.specs.Prelude.{◌≡◌};
ghost use Rattle.std.specs.Iterator.{YieldsFirst, item_count};
ghost use Rattle.std.specs.List.{slice_get};
ghost use Rattle.sheet.specs.Chains.{chain, key_of, survey_of};
ghost use Rattle.sheet.specs.Links.{links_left};

use crate::kinds::Kind;
use crate::reader::{Reader, Record};
use words::{NONE, payload};

/// A chain in one view: how many records it has, their weights together, and whether one has a key.
#[derive(Clone, Copy, PartialEq, Eq, Debug, Default)]
pub struct Survey {
    pub length: usize,
    pub weight: u64,
    pub keyed: bool,
}

/// The numbers of the records of a chain that are still to come, one after the other.
#[derive(Clone, Copy)]
pub struct Chain<'a> {
    reader: Reader<'a>,
    link: u32,
    /// A chain has at most as many records as the sheet.
    left: u32,
}

impl Iterator for Chain<'_> {
    type Item = u32;

    ghost next_gives = { YieldsFirst links_left };

    ghost remaining = { item_count links_left };

    fn next(&mut self) -> Option<u32> {
        if self.left == 0 || self.link == NONE {
            return None;
        }
        let number = self.link;
        self.left -= 1;
        self.link = self.reader.record(number).three;
        Some(number)
    }
}

impl Record {
    /// What may come only once in a chain: an assignment's variable, a catch's exception.
    #[tactic(auto, using(crate::proofs::Numbered::numbered), unfolding(crate::specs::Kinds::kind_named))]
    pub fn key(self) -> u32
        ensures { result ≡ key_of self }
    {
        match self.kind() {
            Some(Kind::Assignment) => payload(self.head),
            _ => self.one,
        }
    }
}

impl<'a> Reader<'a> {
    /// The chain that begins at a record, or at none.
    pub fn chain(&self, first: u32) -> Chain<'a>
        ensures { links_left result ≡ chain self.now.words.now first }
    {
        Chain {
            reader: *self,
            link: first,
            left: self.records(),
        }
    }

    /// The chain that begins at a record, or at none, in one view.
    // Kept: one walk tells all three, where chains of iterators would take three.
    pub fn survey(&self, first: u32, key: u32) -> Survey
        ensures { result ≡ survey_of self.now.words.now key (chain self.now.words.now first) }
    {
        let mut seen = Survey::default();
        for number in self.chain(first) {
            let record = self.record(number);
            seen.length += 1;
            seen.weight += payload(record.head) as u64;
            seen.keyed |= record.key() == key;
        }
        seen
    }

    /// The record at a place of a chain.
    pub fn link(&self, first: u32, i: usize) -> Option<u32>
        ensures { result ≡ slice_get (chain self.now.words.now first) i }
    {
        // what lies past all records is told without going through the chain
        if i >= self.records() as usize {
            return None;
        }
        self.chain(first).nth(i)
    }
}
