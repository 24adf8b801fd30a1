// Words and refusals: what every other crate of the bench speaks in.
#![tactic(auto)]

ghost use Rattle.std.specs.Prelude.{◌≡◌, ℕ, ◌+◌, ◌*◌, ◌/◌, ◌%◌, ◌^◌, ◌<◌, ◌==◌, slice_index};
ghost use Rattle.words.specs.Checks.{unless, Tested};
ghost use Rattle.words.specs.Refusals.{number_of};
ghost use Rattle.words.specs.Words.{kind_of, payload_of, observable, exception};

mod code_word;
mod header;
mod term;

pub use code_word::{CodeWord, NoCodeWord};
pub use header::{HeaderWord, check_header};
pub use term::{NoTerm, Term};

/// The word that stands where a reference is left out.
// Kept: a reference is a word of a sheet or a drawing, in which the format has this number for none.
pub const NONE: u32 = 0xFFFF_FFFF;

/// The payload of a word is below this number; its kind is what lies above.
pub const PAYLOADS: u32 = 0x1000_0000;

/// Why something handed in was refused.
#[derive(Clone, Copy, PartialEq, Eq, Debug)]
pub enum Refusal {
    /// The bytes are not in fours, or too many.
    Bytes = 10,
    /// A header word is missing or wrong.
    Header = 11,
    /// The sheet has not as many words as its header says.
    Count = 12,
    /// The work table has not one word for each record.
    Table = 13,
    /// A process word is wrong.
    Process = 14,
    /// A record's word is wrong.
    Record = 15,
    /// A variable or an exception repeats later in its chain.
    Repeat = 16,
    /// A chain has too many assignments or too much weight.
    Chain = 17,
    /// A process descends to itself.
    Recursion = 18,
    /// A behaviour is too deep.
    Depth = 19,
    /// A behaviour has too many alternatives.
    Span = 20,
    /// A header word of a drawing is missing or wrong.
    DrawingHeader = 31,
    /// The drawing has not as many words as its header says.
    DrawingCount = 32,
    /// A word of a drawing's alphabet is wrong.
    DrawingAlphabet = 33,
    /// A word of a drawing's row is wrong.
    DrawingRow = 34,
    /// A pair to rename, or an action to add, is of a wrong kind.
    WrongKind = 41,
    /// The renaming has a pair for this source.
    SourcePresent = 42,
    /// The layer's table is full.
    TableFull = 43,
    /// A part's ceilings are too large to be told.
    Oversized = 61,
    /// There is no such edge.
    NoEdge = 62,
    /// The edge has no such branch.
    NoBranch = 63,
    /// There is no such item.
    NoItem = 64,
    /// The list does not fit its buffer.
    ListTooLong = 71,
    /// The line does not fit its buffer.
    LineTooLong = 72,
}

impl Refusal {
    /// The number by which users know a refusal.
    pub fn number(self) -> u32
        ensures { result ≡ number_of self }
    {
        self as u32
    }
}

/// A fault of a model or of a drawing: why it is refused, and where.
#[derive(Clone, Copy, PartialEq, Eq, Debug)]
pub struct Fault {
    pub refusal: Refusal,
    pub place: usize,
}

/// The fault of one test: none where what is handed in is right.
pub fn expect(right: bool, refusal: Refusal, place: usize) -> Result<(), Fault>
    ensures { unless refusal place right result }
{
    if right {
        Ok(())
    } else {
        Err(Fault { refusal, place })
    }
}

/// The fault of the lowest number below a count that does not pass a test; the places begin with the first number's.
pub fn expect_each<T: Fn(u32) -> bool>(
    count: u32,
    refusal: Refusal,
    first: usize,
    passes: T,
) -> Result<(), Fault>
    requires room { first + count < 2 ^ 64 }
    requires callable { (i : ℕ) → i < count → T.pre passes i }
    ensures { Tested (T.post passes) refusal first count result }
{
    // Kept: the test is asked by number, and stops at the first that fails.
    for i in 0..count {
        expect(passes(i), refusal, first + i as usize)?;
    }
    Ok(())
}

/// The word at a position, 0 past the end.
pub fn word_at(words: &[u32], position: usize) -> u32
    ensures { result ≡ slice_index words.now position }
{
    words.get(position).copied().unwrap_or(0)
}

/// A word's top four bits, which say what it is.
pub fn kind(word: u32) -> u32
    ensures { result ≡ kind_of word }
{
    word / PAYLOADS
}

/// A word without its kind.
pub fn payload(word: u32) -> u32
    ensures { result ≡ payload_of word }
{
    word % PAYLOADS
}

// Kept: an action is one word of a sheet, a drawing and a list, and is compared and passed on as that word.

/// The silent action.
pub const TAU: u32 = 0;

/// The action of a break, which leaves a loop.
pub const BREAK: u32 = 0x4000_0000;

/// The action of the error.
pub const ERROR: u32 = 0x5000_0000;

/// The kind of an exception.
const EXCEPTION: u32 = 3;

/// Whether a word is a plain number.
pub fn is_number(word: u32) -> bool
    ensures { result ≡ (kind_of word == 0) }
{
    kind(word) == 0
}

/// Whether a word is an exception.
pub fn is_exception(action: u32) -> bool
    ensures { result ≡ exception action }
{
    kind(action) == EXCEPTION
}

/// Whether a word is an action that can be seen from outside: patient or impatient.
// Kept: the one place where the two kinds are told by number.
pub fn is_observable(action: u32) -> bool
    ensures { result ≡ observable action }
{
    let kind = kind(action);
    kind == 1 || kind == 2
}
