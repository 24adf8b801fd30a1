// A reader over the lent words of a sheet.
ghost use Rattle.std.specs.Prelude.{◌≡◌, ◌+◌, ◌*◌, length, slice_index};
ghost use Rattle.sheet.specs.Layout.{processes, records, urge, body, position, four_from, record_at};

use words::{payload, word_at};

/// A record of a sheet: its head and three fields. One that is not there reads as all 0.
// Kept: `record` always answers a record, which is promised, so one that is not there is no `None`.
#[derive(Clone, Copy, PartialEq, Eq, Debug, Default)]
pub struct Record {
    pub head: u32,
    pub one: u32,
    pub two: u32,
    pub three: u32,
}

/// A sheet's words and the reader's place in them, the position of the word that it reads next.
#[derive(Clone, Copy)]
pub struct Reader<'a> {
    words: &'a [u32],
    // Kept: where a reader stands is promised by `new`.
    at: usize,
}

impl<'a> Reader<'a> {
    /// A reader that stands at the first word.
    pub fn new(words: &'a [u32]) -> Reader<'a>
        ensures { (result.words.now ≡ words.now) × (result.at ≡ 0) }
    {
        Reader { words, at: 0 }
    }

    /// The sheet's words.
    pub fn words(&self) -> &'a [u32]
        ensures { result.now ≡ self.now.words.now }
    {
        let Reader { words, .. } = *self;
        words
    }

    /// How many words the sheet has.
    pub fn length(&self) -> usize
        ensures { result ≡ length self.now.words.now }
    {
        self.words.len()
    }

    /// The word at a position, 0 past the end.
    pub fn word(&self, position: usize) -> u32
        ensures { result ≡ slice_index self.now.words.now position }
    {
        word_at(self.words, position)
    }

    /// How many processes the header names.
    pub fn processes(&self) -> u32
        ensures { result ≡ processes self.now.words.now }
    {
        payload(self.word(0))
    }

    /// How many records the header names.
    pub fn records(&self) -> u32
        ensures { result ≡ records self.now.words.now }
    {
        payload(self.word(1))
    }

    /// Whether plain edges are urgent: 1 or 0.
    pub fn urge(&self) -> u32
        ensures { result ≡ urge self.now.words.now }
    {
        payload(self.word(2))
    }

    /// The record that is a process's body.
    pub fn body(&self, process: u32) -> u32
        ensures { result ≡ body self.now.words.now process }
    {
        payload(self.word(3 + process as usize))
    }

    /// The four words where the reader stands, all 0 if they are not all there.
    fn four(&self) -> Record
        ensures { result ≡ four_from self.now.words.now self.now.at }
    {
        match self.words.get(self.at..) {
            Some([head, one, two, three, ..]) => Record {
                head: *head,
                one: *one,
                two: *two,
                three: *three,
            },
            _ => Record::default(),
        }
    }

    /// The record of a number, all 0 if it is not there.
    pub fn record(&self, number: u32) -> Record
        ensures { result ≡ record_at self.now.words.now number }
    {
        let at = 3 + self.processes() as usize + 4 * number as usize;
        let reader = Reader {
            words: self.words,
            at,
        };
        reader.four()
    }
}
