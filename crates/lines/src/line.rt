// A line that is made in a buffer that is lent.
ghost use Rattle.std.specs.Prelude.{◌≡◌, ℕ, List, length, Ok};
ghost use Rattle.lines.specs.Lines.{answered, out_after};
ghost use Rattle.lines.specs.Printing.{Puts, Made};

use itoa::{Buffer, Integer};
use words::Refusal;

/// The line so far: the first bytes of the buffer.
// Kept: a length beside the buffer, since a line is made in memory that is lent, and none is taken for it.
#[derive(Drop)]
pub(crate) struct Line<'a> {
    out: &'a mut [u8],
    length: usize,
}

impl Line<'_> {
    /// Puts bytes behind the line, or refuses where they do not fit.
    pub(crate) fn put(&mut self, text: &[u8]) -> Result<(), Refusal>
        ensures { Puts self.old text.now result self.new }
    {
        let end = self
            .length
            .checked_add(text.len())
            .ok_or(Refusal::LineTooLong)?;
        if self.out.len() < end {
            return Err(Refusal::LineTooLong);
        }
        self.out[self.length..end].copy_from_slice(text);
        self.length = end;
        Ok(())
    }

    /// Puts a number in decimal digits.
    pub(crate) fn put_number<I: Integer>(&mut self, number: I) -> Result<(), Refusal>
        ensures { Puts self.old (I.text number) result self.new }
    {
        // Kept: not `write!`, since no contract of std says that a `Display` which fails has met a full buffer.
        self.put(Buffer::new().format(number).as_bytes())
    }
}

/// What has a text that can stand in a line.
pub(crate) trait Spell {
    ghost text: { Self → List ℕ };

    /// Puts the text behind a line, or refuses where it does not fit.
    fn spell(&self, line: &mut Line<'_>) -> Result<(), Refusal>
        ensures { Puts line.old (text self.now) result line.new };
}

/// Puts a text at the front of a buffer, and gives the number of its bytes.
fn make<T: Spell>(text: &T, out: &mut [u8]) -> Result<usize, Refusal>
    ensures { Made (T.text text.now) out.old result out.new }
{
    let mut line = Line { out, length: 0 };
    text.spell(&mut line)?;
    Ok(line.length)
}

/// Makes a line of a text: zeros come behind it, and nothing but zeros is left where it does not fit.
pub(crate) fn print<T: Spell>(text: &T, out: &mut [u8]) -> Result<usize, Refusal>
    ensures answer { result ≡ answered (Ok (T.text text.now)) (length out.old) }
    ensures out { out.new ≡ out_after (Ok (T.text text.now)) out.old }
{
    let made = make(text, out);
    out[made.unwrap_or(0)..].fill(0);
    made
}
