// Where the rows of an edge and of a branch stand among the words of a list.
ghost use Rattle.std.specs.Prelude.{◌≡◌, take, drop, slice_index};
ghost use Rattle.words.specs.Words.{payload_of};
ghost use Rattle.lists.specs.Reading.{first, row_after, behind_row, guard_row, behind_guard, deadline_row, behind_deadline, branch_total, branch_words_in};
ghost use Rattle.lists.specs.Reading.{pair_row, behind_pairs, outcome_row, behind_branch};

use words::{payload, word_at};

/// The first `count` words, or all where there are fewer, and what comes behind them.
fn split(words: &[u32], count: usize) -> (&[u32], &[u32])
    ensures front { result.0.now ≡ take count words.now }
    ensures behind { result.1.now ≡ drop count words.now }
{
    words.split_at(count.min(words.len()))
}

/// The words behind the first `count`.
pub(crate) fn behind(words: &[u32], count: usize) -> &[u32]
    ensures { result.now ≡ drop count words.now }
{
    split(words, count).1
}

/// The number that the payload of the word at a place tells.
pub(crate) fn number(words: &[u32], place: usize) -> usize
    ensures { result ≡ payload_of (slice_index words.now place) }
{
    payload(word_at(words, place)) as usize
}

/// The row whose length is told by the heading before it, and what comes behind it.
fn row(words: &[u32]) -> (&[u32], &[u32])
    ensures row { result.0.now ≡ row_after (first words.now) (drop 1 words.now) }
    ensures behind { result.1.now ≡ behind_row (first words.now) (drop 1 words.now) }
{
    split(behind(words, 1), number(words, 0))
}

/// The guard of an edge, and what comes behind it.
pub(crate) fn guard(edge: &[u32]) -> (&[u32], &[u32])
    ensures row { result.0.now ≡ guard_row edge.now }
    ensures behind { result.1.now ≡ behind_guard edge.now }
{
    split(behind(edge, 2), number(edge, 0))
}

/// The deadline of an edge, and what comes behind it.
pub(crate) fn deadline(edge: &[u32]) -> (&[u32], &[u32])
    ensures row { result.0.now ≡ deadline_row edge.now }
    ensures behind { result.1.now ≡ behind_deadline edge.now }
{
    row(guard(edge).1)
}

/// How many branches an edge has, and their words with all that come after them.
pub(crate) fn branches(edge: &[u32]) -> (usize, &[u32])
    ensures count { result.0 ≡ branch_total edge.now }
    ensures words { result.1.now ≡ branch_words_in edge.now }
{
    let rest = deadline(edge).1;
    (number(rest, 0), behind(rest, 1))
}

/// The assignments of a branch, and what comes behind them.
pub(crate) fn pairs(branch: &[u32]) -> (&[u32], &[u32])
    ensures row { result.0.now ≡ pair_row branch.now }
    ensures behind { result.1.now ≡ behind_pairs branch.now }
{
    split(behind(branch, 2), 2 * number(branch, 1))
}

/// The outcome of a branch, and what comes behind it.
pub(crate) fn outcome(branch: &[u32]) -> (&[u32], &[u32])
    ensures row { result.0.now ≡ outcome_row branch.now }
    ensures behind { result.1.now ≡ behind_branch branch.now }
{
    row(pairs(branch).1)
}
