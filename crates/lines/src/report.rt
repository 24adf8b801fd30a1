// The three kinds of lines. Each gives the number of its bytes; the rest of the buffer is 0 then.
ghost use Rattle.std.specs.Prelude.{◌≡◌, length, Ok};
ghost use Rattle.lists.specs.Reading.{edges_in};
ghost use Rattle.lines.specs.Lines.{head_text, edge_text, branch_text, edge_line_in, branch_line_in, answered, out_after};
ghost use Rattle.listed.specs.Listed.{edge_at, branch_at};

use crate::letters::Action;
use crate::line::{Line, Spell, print};
use crate::texts::{put_code, put_deadline, put_guard, put_pairs};
use listed::{ListedBranch, ListedEdge, edge, edge_count};
use lists::List;
use words::Refusal;

/// The line that tells how many edges a list has.
#[derive(Clone, Copy)]
struct Head {
    edges: usize,
}

/// The line of an edge, with its number.
#[derive(Clone, Copy)]
struct EdgeLine<'a> {
    number: usize,
    edge: ListedEdge<'a>,
}

/// The line of a branch, with its number.
#[derive(Clone, Copy)]
struct BranchLine<'a> {
    number: usize,
    branch: ListedBranch<'a>,
}

impl Spell for Head {
    ghost text = { λ l. head_text l.edges };

    fn spell(&self, line: &mut Line<'_>) -> Result<(), Refusal> {
        line.put(b"edges ")?;
        line.put_number(self.edges)
    }
}

impl Spell for EdgeLine<'_> {
    ghost text = { λ l. edge_text l.number (edge_at l.edge) };

    #[tactic(auto, unfolding(crate::specs::Lines::edge_text))]
    fn spell(&self, line: &mut Line<'_>) -> Result<(), Refusal> {
        let edge = self.edge;
        line.put_number(self.number)?;
        line.put(b" ")?;
        Action::from(edge.action()).spell(line)?;
        line.put(b" g")?;
        put_guard(line, edge.guard())?;
        line.put(b" d")?;
        put_deadline(line, edge.deadline())?;
        line.put(b" b")?;
        line.put_number(edge.branch_count())
    }
}

impl Spell for BranchLine<'_> {
    ghost text = { λ l. branch_text l.number (branch_at l.branch) };

    #[tactic(auto, unfolding(crate::specs::Lines::branch_text))]
    fn spell(&self, line: &mut Line<'_>) -> Result<(), Refusal> {
        let branch = self.branch;
        line.put(b" ")?;
        line.put_number(self.number)?;
        line.put(b" w")?;
        line.put_number(branch.weight())?;
        line.put(b" a")?;
        put_pairs(line, branch.pairs())?;
        line.put(b" > ")?;
        put_code(line, branch.outcome())
    }
}

/// The line that tells how many edges a list has.
pub fn head_line(list: List<'_>, out: &mut [u8]) -> Result<usize, Refusal>
    ensures answer { result ≡ answered (Ok (head_text (length (edges_in list.entry.words.now)))) (length out.old) }
    ensures out { out.new ≡ out_after (Ok (head_text (length (edges_in list.entry.words.now)))) out.old }
{
    let edges = edge_count(list);
    print(&Head { edges }, out)
}

/// The line of the edge that has a number.
pub fn edge_line(list: List<'_>, number: usize, out: &mut [u8]) -> Result<usize, Refusal>
    ensures answer { result ≡ answered (edge_line_in list.entry.words.now number) (length out.old) }
    ensures out { out.new ≡ out_after (edge_line_in list.entry.words.now number) out.old }
{
    listed_edge_line(edge(list, number)?, number, out)
}

/// The line of a branch of the edge that has a number.
pub fn branch_line(
    list: List<'_>,
    number: usize,
    branch: usize,
    out: &mut [u8],
) -> Result<usize, Refusal>
    ensures answer { result ≡ answered (branch_line_in list.entry.words.now number branch) (length out.old) }
    ensures out { out.new ≡ out_after (branch_line_in list.entry.words.now number branch) out.old }
{
    listed_branch_line(edge(list, number)?.branch(branch)?, branch, out)
}

/// The line of an edge that was found, with the number that it has in its list.
pub fn listed_edge_line(
    edge: ListedEdge<'_>,
    number: usize,
    out: &mut [u8],
) -> Result<usize, Refusal>
    ensures answer { result ≡ answered (Ok (edge_text number (edge_at edge.entry))) (length out.old) }
    ensures out { out.new ≡ out_after (Ok (edge_text number (edge_at edge.entry))) out.old }
{
    print(&EdgeLine { number, edge }, out)
}

/// The line of a branch that was found, with the number that it has in its edge.
pub fn listed_branch_line(
    branch: ListedBranch<'_>,
    number: usize,
    out: &mut [u8],
) -> Result<usize, Refusal>
    ensures answer { result ≡ answered (Ok (branch_text number (branch_at branch.entry))) (length out.old) }
    ensures out { out.new ≡ out_after (Ok (branch_text number (branch_at branch.entry))) out.old }
{
    print(&BranchLine { number, branch }, out)
}
