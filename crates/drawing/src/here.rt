// The rows where a drawing stands.
ghost use Rattle.std.specs.Prelude.{◌≡◌};
ghost use Rattle.part.specs.Questions.{edge_by_id, branch_of};
ghost use Rattle.drawing.specs.Drawings.{words_of, meaning_of};
ghost use Rattle.drawing.specs.Here.{row_by_id, edge_of, row_by_branch, branch_in};

use crate::drawing::Drawing;
use crate::table::{Row, Table};
use words::Refusal;

impl Drawing {
    /// The words, read by what they hold.
    pub(crate) fn table(&self) -> Table<'_>
        ensures { result.words.now ≡ words_of self.now }
    {
        Table::new(&self.words)
    }

    /// The row of the edge with an id where the drawing stands.
    pub(crate) fn row_at(&self, id: usize) -> Result<Row, Refusal>
        ensures row { result ≡ row_by_id self.now id }
        ensures edge { edge_of result ≡ edge_by_id (meaning_of self.now) id }
    {
        if id >= self.rows.len() {
            return Err(Refusal::NoEdge);
        }
        Ok(self.table().row(self.rows.start + id))
    }

    /// The same row, for a branch of that edge.
    pub(crate) fn branch_at(&self, id: usize, branch: usize) -> Result<Row, Refusal>
        ensures row { result ≡ row_by_branch self.now id branch }
        ensures branch { branch_in result ≡ branch_of (edge_by_id (meaning_of self.now) id) branch }
    {
        let row = self.row_at(id)?;
        (branch == 0).then_some(row).ok_or(Refusal::NoBranch)
    }
}
