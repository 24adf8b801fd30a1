// An open edge record: words are put into it, and it is closed, or it undoes itself.
ghost use Rattle.std.specs.Prelude.{◌≡◌, ◌+◌, ◌-◌, ◌*◌, ◌<◌, ◌≤◌, true, false, [], ◌∷◌};
ghost use Rattle.lists.specs.Records.{Put, Closed, end_of};

use crate::Mark;
use words::Refusal;

/// A list's header has room to count this many edges.
const MOST_EDGES: usize = 268_435_455;

/// An edge record that is being written at the end of a list.
///
/// Unless it is closed, the list's end goes back to where the record began.
pub struct Open<'w> {
    mark: &'w mut Mark,
    start: usize,
    // Kept: `put` never fails, which is promised, so that a word found no room is told by `close`.
    full: bool,
}

impl Mark {
    /// Opens a record at the end of the list.
    pub fn open(&mut self) -> Open<'_>
        ensures lent { result.mark.ghost_name ≡ self.entry.ghost_name }
        ensures same { result.mark.now ≡ self.old }
        ensures start { result.start ≡ self.old.end }
        ensures full { result.full ≡ false }
    {
        let start = self.end;
        Open {
            mark: self,
            start,
            full: false,
        }
    }
}

impl Open<'_> {
    /// Puts a word into the record. Where there is no room for it, the record can no longer be closed.
    pub fn put(&mut self, words: &mut [u32], word: u32)
        ensures { Put self.old words.old word self.new words.new }
    {
        let end = self.mark.end;
        // Kept: by `get_mut` nothing would be known of the words afterwards.
        if end < words.len() {
            words[end] = word;
            self.mark.end = end + 1;
        } else {
            self.full = true;
        }
    }

    /// Where the next word will stand.
    pub(crate) fn end(&self) -> usize
        ensures { result ≡ end_of self.now }
    {
        self.mark.end
    }

    /// Whether something did not fit.
    pub(crate) fn is_full(&self) -> bool
        ensures { result ≡ self.now.full }
    {
        self.full
    }

    /// Closes the record: it stays in the list and is counted.
    pub fn close(self) -> Result<(), Refusal>
        ensures { Closed self.entry result self.exit.0.now.end self.exit.0.now.count }
    {
        let count = self.mark.count;
        if self.full || count == MOST_EDGES {
            return Err(Refusal::ListTooLong);
        }
        self.mark.count = count + 1;
        let Open {
            mark: _,
            start: _,
            full: _,
        } = self;
        Ok(())
    }
}

impl Drop for Open<'_> {
    fn drop(self)
        ensures end { self.exit.0.now.end ≡ self.entry.start }
        ensures count { self.exit.0.now.count ≡ self.entry.mark.now.count }
    {
        self.mark.end = self.start;
        let Open {
            mark: _,
            start: _,
            full: _,
        } = self;
    }
}
