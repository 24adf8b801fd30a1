// Writing one edge of a part into an open record, word by word.
ghost use Rattle.std.specs.Prelude.{◌≡◌, ℕ, ◌<◌, true, List, length, is_ok, Ok};
ghost use Rattle.std.specs.List.{flat_map, slice_get};
ghost use Rattle.words.specs.Edges.{Branch, Edge};
ghost use Rattle.words.specs.declared.Refusal.TheVariants.{NoItem};
ghost use Rattle.part.specs.Questions.{Answer, found, edge_by_id, branch_of};
ghost use Rattle.lists.specs.Format.{pair_words, branch_words, edge_words, payloads};
ghost use Rattle.lists.specs.Records.{Wrote, Marked};

use crate::Open;
use crate::clash::clash;
use crate::format::Heading;
use part::Part;
use words::Refusal;

/// An edge where a part stands, by its id.
#[derive(Drop)]
pub(crate) struct PartEdge<'p, P: Part> {
    part: &'p P,
    id: usize,
    ghost stands: { is_ok (edge_by_id (P.Part.meaning part.now) id) ≡ true },
}

/// Puts a row of so many words, each as a question tells it.
fn put_row<Q: Fn(usize) -> Result<u32, Refusal>>(
    count: usize,
    word: Q,
    rec: &mut Open<'_>,
    words: &mut [u32],
)
    requires callable { (i : ℕ) → i < count → Q.pre word i }
    requires told { (i : ℕ) (r : Answer ℕ) → i < count → Q.post word i r → is_ok r ≡ true }
    ensures { (ws : List ℕ) → count ≡ length ws → ((i : ℕ) (r : Answer ℕ) → Q.post word i r → r ≡ found NoItem (slice_get ws i))
        → Wrote rec.old words.old ws rec.new words.new }
{
    // Kept: a part tells the words of a row by their numbers alone.
    for item in 0..count {
        rec.put(words, word(item).unwrap());
    }
}

/// Marks the count of pairs at `place` if the pairs after it clash.
fn mark_clash(words: &mut [u32], place: usize, count: usize)
    requires { count < payloads }
    ensures { Marked words.old place count words.new }
{
    // Kept: the count stands before the slice that is looked at, and is written where it clashes.
    if place < words.len()
        && 2 * count < words.len() - place
        && clash(&words[place + 1..place + 1 + 2 * count])
    {
        words[place] = Heading::Clash.of(count);
    }
}

impl<'p, P: Part> PartEdge<'p, P> {
    /// The edge of a part with an id.
    pub(crate) fn new(part: &'p P, id: usize) -> PartEdge<'p, P>
        requires { is_ok (edge_by_id (P.Part.meaning part.now) id) ≡ true }
        ensures { (result.part.now ≡ part.now) × (result.id ≡ id) }
    {
        PartEdge { part, id }
    }

    fn put_pairs(&self, branch: usize, rec: &mut Open<'_>, words: &mut [u32])
        requires { is_ok (branch_of (edge_by_id (P.Part.meaning self.now.part.now) self.now.id) branch) ≡ true }
        ensures { (b : Branch (List ℕ)) → branch_of (edge_by_id (P.Part.meaning self.now.part.now) self.now.id) branch ≡ Ok b
            → Wrote rec.old words.old (pair_words b.assignments) rec.new words.new }
    {
        let count = self.part.assignment_count(self.id, branch).unwrap();
        // Kept: a part tells assignments by their numbers alone.
        for item in 0..count {
            let pair = self.part.assignment(self.id, branch, item).unwrap();
            rec.put(words, pair.variable);
            rec.put(words, pair.expression);
        }
    }

    fn put_branch(&self, branch: usize, rec: &mut Open<'_>, words: &mut [u32])
        requires { is_ok (branch_of (edge_by_id (P.Part.meaning self.now.part.now) self.now.id) branch) ≡ true }
        ensures { (b : Branch (List ℕ)) → branch_of (edge_by_id (P.Part.meaning self.now.part.now) self.now.id) branch ≡ Ok b
            → Wrote rec.old words.old (branch_words b) rec.new words.new }
    {
        let part = self.part;
        let id = self.id;
        let weight = part.weight(id, branch).unwrap();
        rec.put(words, weight);
        let place = rec.end();
        let count = part.assignment_count(id, branch).unwrap();
        rec.put(words, Heading::Plain.of(count));
        self.put_pairs(branch, rec, words);
        mark_clash(words, place, count);
        let length = part.outcome_length(id, branch).unwrap();
        rec.put(words, Heading::Plain.of(length));
        put_row(
            length,
            |item| part.outcome_word(id, branch, item),
            rec,
            words,
        );
    }

    fn put_branches(&self, rec: &mut Open<'_>, words: &mut [u32])
        ensures { (e : Edge (List ℕ)) → edge_by_id (P.Part.meaning self.now.part.now) self.now.id ≡ Ok e
            → Wrote rec.old words.old (flat_map branch_words e.branches) rec.new words.new }
    {
        let count = self.part.branch_count(self.id).unwrap();
        // Kept: a part tells branches by their numbers alone.
        for branch in 0..count {
            if rec.is_full() {
                return;
            }
            self.put_branch(branch, rec, words);
        }
    }

    /// Puts the words of the edge into a record.
    pub(crate) fn put(&self, rec: &mut Open<'_>, words: &mut [u32])
        ensures { (e : Edge (List ℕ)) → edge_by_id (P.Part.meaning self.now.part.now) self.now.id ≡ Ok e
            → Wrote rec.old words.old (edge_words e) rec.new words.new }
    {
        let part = self.part;
        let id = self.id;
        let guard = part.guard_length(id).unwrap();
        rec.put(words, Heading::Guard.of(guard));
        let action = part.action(id).unwrap();
        rec.put(words, action);
        put_row(guard, |item| part.guard_word(id, item), rec, words);
        let deadline = part.deadline_length(id).unwrap();
        rec.put(words, Heading::Deadline.of(deadline));
        put_row(deadline, |item| part.deadline_word(id, item), rec, words);
        let branches = part.branch_count(id).unwrap();
        rec.put(words, Heading::Branches.of(branches));
        self.put_branches(rec, words);
    }
}
