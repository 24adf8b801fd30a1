// The words of a drawing, read by what they hold.
ghost use Rattle.std.specs.Prelude.{◌≡◌, length, drop, slice_index};
ghost use Rattle.drawing.specs.Automata.{guard_of};
ghost use Rattle.drawing.specs.Layout.{places, row_count, action_count, row_words, row_at};

use std::slice::from_ref;
use words::{NONE, payload, word_at};

/// How many words the header has.
pub(crate) const HEADER: usize = 3;

/// How many words a row has.
pub(crate) const ROW: usize = 5;

/// A row: an edge from a place, with one outcome. A row that is not there reads as all 0.
// Kept: no Option, since the definitions that are promised read a missing row so.
#[derive(Clone, Copy, Default)]
pub(crate) struct Row {
    pub from: u32,
    pub action: u32,
    pub condition: u32,
    pub deadline: u32,
    pub outcome: u32,
}

impl Row {
    /// The conditions of the row's guard: one or none.
    pub(crate) fn guard(&self) -> &[u32]
        ensures { result.now ≡ guard_of self.now.condition }
    {
        if self.condition == NONE {
            &[]
        } else {
            from_ref(&self.condition)
        }
    }
}

/// The lent words of a drawing.
// Kept: beside the reader of a sheet, since the two share no header word; what they share is `word_at`.
#[derive(Clone, Copy)]
pub(crate) struct Table<'a> {
    words: &'a [u32],
}

impl<'a> Table<'a> {
    /// The table that lent words hold.
    pub(crate) fn new(words: &'a [u32]) -> Table<'a>
        ensures { result.words.now ≡ words.now }
    {
        Table { words }
    }

    /// The words.
    pub(crate) fn words(&self) -> &'a [u32]
        ensures { result.now ≡ self.now.words.now }
    {
        self.words
    }

    /// How many words there are.
    pub(crate) fn length(&self) -> usize
        ensures { result ≡ length self.now.words.now }
    {
        self.words.len()
    }

    /// The word at a position, 0 past the end.
    pub(crate) fn word(&self, position: usize) -> u32
        ensures { result ≡ slice_index self.now.words.now position }
    {
        word_at(self.words, position)
    }

    /// The words from a position on, none past the end.
    fn rest(&self, position: usize) -> &'a [u32]
        ensures { result.now ≡ drop position self.now.words.now }
    {
        self.words.get(position..).unwrap_or_default()
    }

    /// How many places the header names.
    pub(crate) fn places(&self) -> u32
        ensures { result ≡ places self.now.words.now }
    {
        payload(self.word(0))
    }

    /// How many rows the header names.
    pub(crate) fn rows(&self) -> usize
        ensures { result ≡ row_count self.now.words.now }
    {
        payload(self.word(1)) as usize
    }

    /// How many actions the header names.
    pub(crate) fn actions(&self) -> usize
        ensures { result ≡ action_count self.now.words.now }
    {
        payload(self.word(2)) as usize
    }

    /// The rows that are there, five words each.
    pub(crate) fn all_rows(&self) -> &'a [[u32; ROW]]
        ensures { result.now ≡ row_words self.now.words.now }
    {
        let (rows, _rest) = self.rest(HEADER + self.actions()).as_chunks();
        rows
    }

    /// The row of a number.
    pub(crate) fn row(&self, number: usize) -> Row
        ensures { result ≡ row_at self.now.words.now number }
    {
        match self.all_rows().get(number) {
            Some(&[from, action, condition, deadline, outcome]) => Row {
                from,
                action,
                condition,
                deadline,
                outcome,
            },
            None => Row::default(),
        }
    }
}
