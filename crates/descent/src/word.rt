// The words of the work table: a behaviour's depth and span, 0 where there is none.
ghost use Rattle.std.specs.Prelude.{◌≡◌, ◌+◌, max, slice_index};
ghost use Rattle.descent.specs.Sizes.{depth_of, span_of};
ghost use Rattle.descent.specs.Growth.{sized_from, given, word_over};

use sheet::Below;
use words::word_at;

/// The greatest depth of a behaviour.
const MAX_DEPTH: u32 = 64;

/// The greatest span of a behaviour.
pub(crate) const MAX_SPAN: u32 = 4_096;

/// A word is its depth times this number, and its span.
// Kept: the format of the table has one word for each record, so both share it.
const DEPTH: u32 = 65_536;

/// The depth that a word holds.
pub fn depth(word: u32) -> u32
    ensures { result ≡ depth_of word }
{
    word / DEPTH
}

/// The span that a word holds.
pub fn span(word: u32) -> u32
    ensures { result ≡ span_of word }
{
    word % DEPTH
}

/// The word of a depth and a span, none for a depth above its limit. Every span above its limit counts as the next number.
fn sized(depth: u32, span: u32) -> Option<u32>
    ensures { result ≡ sized_from depth span }
{
    if depth > MAX_DEPTH {
        return None;
    }
    Some(depth * DEPTH + span.min(MAX_SPAN + 1))
}

/// The word of a record that descends to one other, by that one's word.
fn over_one(word: u32) -> Option<u32>
    ensures { result ≡ sized_from (1 + depth_of word) (span_of word) }
{
    sized(1 + depth(word), span(word))
}

/// The word of a record that descends to two others, by their words.
fn over_two(left: u32, right: u32) -> Option<u32>
    ensures { result ≡ sized_from (1 + max (depth_of left) (depth_of right)) (span_of left + span_of right) }
{
    sized(1 + depth(left).max(depth(right)), span(left) + span(right))
}

/// The word that a record has in the table, if it has one.
fn known(table: &[u32], number: u32) -> Option<u32>
    ensures { result ≡ given (slice_index table.now number) }
{
    let word = word_at(table, number as usize);
    (word != 0).then_some(word)
}

/// The word of a record by the words of those that it descends to, none while one of them has none.
pub(crate) fn word_over(table: &[u32], below: Below) -> Option<u32>
    ensures { result ≡ given (word_over below table.now) }
{
    match below {
        Below::Absent => None,
        Below::Leaf => sized(1, 1),
        Below::One(a) => over_one(known(table, a)?),
        Below::Two(a, b) => over_two(known(table, a)?, known(table, b)?),
    }
}
