// An ended list's edges and branches, by number and one after the other.
ghost use Rattle.std.specs.Prelude.{◌≡◌, length, drop, MatchResult};
ghost use Rattle.words.specs.declared.Refusal.TheVariants.{NoEdge, NoBranch};
ghost use Rattle.lists.specs.Reading.{behind_edge, behind_branch, edges_in, pairs_in};
ghost use Rattle.listed.specs.Listed.{edge_at, edges_on, edges_left, branch_at, branches_on, branches_left, Missing};

use crate::item::{Kind, Listed};
use crate::items::Items;
use crate::rows;
use lists::List;
use words::{Refusal, word_at};

/// The kind of edges.
#[derive(Clone, Copy)]
pub struct EdgeKind;

/// The kind of branches.
#[derive(Clone, Copy)]
pub struct BranchKind;

impl Kind for EdgeKind {
    ghost after = { behind_edge };

    fn behind(words: &[u32]) -> &[u32] {
        let (count, branches) = rows::branches(words);
        let mut rest = branches;
        // Kept: no index is counted; as many branches are passed as the edge has.
        for _branch in 0..count {
            rest = BranchKind::behind(rest);
        }
        rest
    }
}

impl Kind for BranchKind {
    ghost after = { behind_branch };

    fn behind(words: &[u32]) -> &[u32] {
        rows::outcome(words).1
    }
}

/// An edge of an ended list.
pub type ListedEdge<'a> = Listed<'a, EdgeKind>;

/// A branch of an edge of an ended list.
pub type ListedBranch<'a> = Listed<'a, BranchKind>;

/// How many edges a list has.
pub fn edge_count(list: List<'_>) -> usize
    ensures { result ≡ length (edges_in list.entry.words.now) }
{
    rows::number(list.words(), 0)
}

/// The edges of a list.
pub fn edges<'a>(list: List<'a>) -> Items<'a, EdgeKind>
    ensures { edges_left result ≡ edges_in list.entry.words.now }
{
    let words = list.words();
    Items::new(rows::number(words, 0), rows::behind(words, 1))
}

/// The edge of a list that has a number.
pub fn edge<'a>(list: List<'a>, number: usize) -> Result<ListedEdge<'a>, Refusal>
    ensures { MatchResult result (λ x. edges_on x ≡ drop number (edges_in list.entry.words.now)) (Missing NoEdge (edges_in list.entry.words.now) number) }
{
    edges(list).item(number).ok_or(Refusal::NoEdge)
}

impl<'a> Listed<'a, EdgeKind> {
    /// Its branches.
    pub fn branches(self) -> Items<'a, BranchKind>
        ensures { branches_left result ≡ (edge_at self.entry).branches }
    {
        let (count, words) = rows::branches(self.words());
        Items::new(count, words)
    }

    /// The branch of this edge that has a number.
    pub fn branch(self, number: usize) -> Result<ListedBranch<'a>, Refusal>
        ensures { MatchResult result (λ x. branches_on x ≡ drop number (edge_at self.entry).branches) (Missing NoBranch (edge_at self.entry).branches number) }
    {
        self.branches().item(number).ok_or(Refusal::NoBranch)
    }

    /// Its action.
    pub fn action(self) -> u32
        ensures { result ≡ (edge_at self.entry).action }
    {
        word_at(self.words(), 1)
    }

    /// The conditions of its guard.
    pub fn guard(self) -> &'a [u32]
        ensures { result.now ≡ (edge_at self.entry).guard }
    {
        rows::guard(self.words()).0
    }

    /// The words of its deadline.
    pub fn deadline(self) -> &'a [u32]
        ensures { result.now ≡ (edge_at self.entry).deadline }
    {
        rows::deadline(self.words()).0
    }

    /// How many branches it has.
    pub fn branch_count(self) -> usize
        ensures { result ≡ length (edge_at self.entry).branches }
    {
        rows::branches(self.words()).0
    }
}

impl<'a> Listed<'a, BranchKind> {
    /// Its weight.
    pub fn weight(self) -> u32
        ensures { result ≡ (branch_at self.entry).weight }
    {
        word_at(self.words(), 0)
    }

    /// Its assignments: variable, expression, variable, expression, and so on.
    pub fn pairs(self) -> &'a [u32]
        ensures { pairs_in result.now ≡ (branch_at self.entry).assignments }
    {
        rows::pairs(self.words()).0
    }

    /// The code of its outcome; empty where that lies beyond.
    pub fn outcome(self) -> &'a [u32]
        ensures { result.now ≡ (branch_at self.entry).outcome }
    {
        rows::outcome(self.words()).0
    }
}
