// The printout of an ended list: all its lines, one after the other.
#![tactic(auto)]

ghost use Rattle.std.specs.Prelude.{◌≡◌, ℕ, Bool, List as Row, ◌++◌, length, codes, OnOk};
ghost use Rattle.lists.specs.Reading.{edge_in, edges_in, branch_in};
ghost use Rattle.listed.specs.Listed.{edge_at, branch_at};
ghost use Rattle.listed.specs.Standing.{standing};
ghost use Rattle.printout.specs.declared.Unprinted.TheVariants.{LongLine, NoMemory};
ghost use Rattle.printout.specs.Printouts.{rows, each_fits, branch_line, branch_fits, edge_lines, edge_fits, printout_of, printable, Puts};

mod failure;
mod text;

pub use failure::Failure;
use lines::{head_line, listed_branch_line, listed_edge_line};
use listed::{BranchKind, EdgeKind, Items, Kind, Listed, ListedBranch, ListedEdge, edges};
use lists::List;
use std::alloc::AllocError;
pub use text::{explain, part_text, refused_line};
use words::Refusal;

/// Why a list was not printed.
#[derive(Drop)]
pub enum Unprinted {
    /// A line does not fit the buffer in which lines are made.
    LongLine,
    NoMemory,
}

impl From<AllocError> for Unprinted {
    ghost from_gives = { λ _ u. u ≡ NoMemory };

    fn from(_error: AllocError) -> Unprinted {
        Unprinted::NoMemory
    }
}

impl From<Refusal> for Unprinted {
    ghost from_gives = { λ _ u. u ≡ LongLine };

    fn from(_refusal: Refusal) -> Unprinted {
        Unprinted::LongLine
    }
}

/// Puts a line, and a newline, behind a text.
fn put_line(text: &mut Vec<u8>, line: &[u8]) -> Result<(), AllocError>
    ensures { OnOk result (text.new.items ≡ text.old.items ++ (line.now ++ codes "\n")) }
{
    text.extend_from_slice(line)?;
    text.push(b'\n')?;
    Ok(())
}

/// A kind of items of a list that have lines in its printout.
// Kept: text and buffer go beside each other: of a struct that held both, the check proved no call that was lent the two at once.
trait Printed: Kind {
    // What stands in the printout for an item, by its number and its words, and whether its lines fit a buffer.
    ghost lines: { ℕ → Row ℕ → Row ℕ };

    ghost fits: { ℕ → ℕ → Row ℕ → Bool };

    /// Puts the lines of an item behind a text.
    fn put(
        item: Listed<'_, Self>,
        number: usize,
        text: &mut Vec<u8>,
        line: &mut [u8],
    ) -> Result<(), Unprinted>
    where
        Self: Sized,
        ensures { Puts (lines number item.entry.words.now) (fits (length line.old) number item.entry.words.now) text.old.items text.new.items result };
}

/// Puts the lines of items behind a text, one after the other.
fn put_each<K: Printed>(
    items: Items<'_, K>,
    text: &mut Vec<u8>,
    line: &mut [u8],
) -> Result<(), Unprinted>
    ensures { Puts (rows (λ n p. K.lines n p.1) 0 (standing K.after items.entry.left items.entry.words.now)) (each_fits (λ n p. K.fits (length line.old) n p.1) 0 (standing K.after items.entry.left items.entry.words.now)) text.old.items text.new.items result }
{
    for (number, item) in items.enumerate() {
        K::put(item, number, text, line)?;
    }
    Ok(())
}

impl Printed for BranchKind {
    ghost lines = { λ n ws. branch_line n (branch_in ws) };

    ghost fits = { λ room n ws. branch_fits room n (branch_in ws) };

    fn put(
        branch: ListedBranch<'_>,
        number: usize,
        text: &mut Vec<u8>,
        line: &mut [u8],
    ) -> Result<(), Unprinted>
        ensures { Puts (branch_line number (branch_at branch.entry)) (branch_fits (length line.old) number (branch_at branch.entry)) text.old.items text.new.items result }
    {
        let count = listed_branch_line(branch, number, line)?;
        put_line(text, &line[..count])?;
        Ok(())
    }
}

impl Printed for EdgeKind {
    ghost lines = { λ n ws. edge_lines n (edge_in ws) };

    ghost fits = { λ room n ws. edge_fits room n (edge_in ws) };

    fn put(
        edge: ListedEdge<'_>,
        number: usize,
        text: &mut Vec<u8>,
        line: &mut [u8],
    ) -> Result<(), Unprinted>
        ensures { Puts (edge_lines number (edge_at edge.entry)) (edge_fits (length line.old) number (edge_at edge.entry)) text.old.items text.new.items result }
    {
        let count = listed_edge_line(edge, number, line)?;
        put_line(text, &line[..count])?;
        put_each(edge.branches(), text, line)
    }
}

/// Puts the printout of an ended list behind a text; lines are made in a buffer that is lent.
pub fn put_list(text: &mut Vec<u8>, list: List<'_>, line: &mut [u8]) -> Result<(), Unprinted>
    ensures { Puts (printout_of (edges_in list.entry.words.now)) (printable (length line.old) (edges_in list.entry.words.now)) text.old.items text.new.items result }
{
    let count = head_line(list, line)?;
    put_line(text, &line[..count])?;
    put_each(edges(list), text, line)
}
