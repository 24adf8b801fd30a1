// Listing the edges of a part, where it stands, into a buffer of words.
ghost use Rattle.std.specs.Prelude.{◌≡◌, ℕ, ◌<◌, ◌≤◌, true, List, length, is_ok, Ok};
ghost use Rattle.words.specs.Edges.{Edge};
ghost use Rattle.part.specs.Automata.{edges_here};
ghost use Rattle.part.specs.Questions.{ids_from, edge_by_id};
ghost use Rattle.lists.specs.Listing.{listing_of, buffer_after, refusal_of, written};
ghost use Rattle.lists.specs.Reading.{edges_in};
ghost use Rattle.lists.specs.Records.{most_listed};
ghost use Rattle.lists.specs.Runs.{AddedIfRoom, AddedLeading};

use crate::writer::PartEdge;
use crate::{Counts, Mark};
use part::{EdgeIds, Part, edge_ids};
use words::Refusal;

/// Why a listing was not accepted.
#[derive(Clone, Copy, PartialEq, Eq, Debug)]
pub enum Unlisted {
    /// The part is oversized; nothing was written.
    Oversized,
    /// Not all edges had room; the leading ones that had are listed and counted.
    TooLong(Counts),
}

impl Unlisted {
    /// The refusal, with the number that users know.
    pub fn refusal(self) -> Refusal
        ensures { result ≡ refusal_of self }
    {
        match self {
            Unlisted::Oversized => Refusal::Oversized,
            Unlisted::TooLong(_) => Refusal::ListTooLong,
        }
    }
}

/// Lists the edges of a part into `words`: as many leading ones as have room, and zeros after them.
pub fn list<P: Part>(part: &P, words: &mut [u32]) -> Result<Counts, Unlisted>
    ensures answer { result ≡ listing_of (P.Part.meaning part.now) (length words.old) }
    ensures listed { words.new ≡ buffer_after (P.Part.meaning part.now) words.old }
    ensures determined { 0 < (P.Part.meaning part.now).automaton.ceilings.edges
        → edges_in words.new ≡ written (length words.old) (edges_here (P.Part.meaning part.now)) }
{
    let Ok(ids) = edge_ids(part) else {
        return Err(Unlisted::Oversized);
    };
    let Some(mut mark) = Mark::begin(words) else {
        return Err(Unlisted::TooLong(Counts { edges: 0, words: 0 }));
    };
    let whole = add_edges(part, ids, &mut mark, words);
    let counts = mark.end(words);
    // Kept: no plainer by `map` and `map_err`, which would take a closure for each case.
    match whole {
        Ok(()) => Ok(counts),
        Err(_) => Err(Unlisted::TooLong(counts)),
    }
}

/// Adds edges to a list until one has no room.
fn add_edges<P: Part>(
    part: &P,
    ids: EdgeIds<'_, P>,
    mark: &mut Mark,
    words: &mut [u32],
) -> Result<(), Refusal>
    requires all { ids_from (P.Part.meaning ids.part.now) ids.from ≡ ids_from (P.Part.meaning part.now) 0 }
    requires sized { 0 < (P.Part.meaning part.now).automaton.ceilings.edges }
    requires none { mark.old.count ≡ 0 }
    requires room { mark.old.end ≤ length words.old }
    ensures { AddedLeading (edges_here (P.Part.meaning part.now)) mark.old words.old result mark.new words.new }
{
    for id in ids {
        add_edge(part, id, mark, words)?;
    }
    Ok(())
}

/// Adds the edge with an id to a list, or leaves the list as it was where there is no room.
fn add_edge<P: Part>(part: &P, id: usize, mark: &mut Mark, words: &mut [u32]) -> Result<(), Refusal>
    requires edge { is_ok (edge_by_id (P.Part.meaning part.now) id) ≡ true }
    requires few { mark.old.count < most_listed }
    requires room { mark.old.end ≤ length words.old }
    ensures { (e : Edge (List ℕ)) → edge_by_id (P.Part.meaning part.now) id ≡ Ok e
        → AddedIfRoom e mark.old words.old result mark.new words.new }
{
    let mut rec = mark.open();
    PartEdge::new(part, id).put(&mut rec, words);
    rec.close()
}
