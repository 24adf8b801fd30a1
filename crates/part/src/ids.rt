// The ids of a part's edges, one after the other.
ghost use Rattle.std.specs.Prelude.{◌≡◌, ◌<◌, MatchResult, OnOk, OnErr};
ghost use Rattle.std.specs.Iterator.{YieldsFirst, item_count};
ghost use Rattle.words.specs.declared.Refusal.TheVariants.{Oversized};
ghost use Rattle.part.specs.Questions.{ids_from};

use crate::Part;
use words::Refusal;

/// The ids at or after one at which edges stand, rising. The part is not oversized.
#[derive(Drop)]
pub struct EdgeIds<'p, P: Part> {
    part: &'p P,
    from: usize,
    ghost told: { 0 < (P.Part.meaning part.now).automaton.ceilings.edges },
}

impl<P: Part> Iterator for EdgeIds<'_, P> {
    type Item = usize;

    ghost next_gives = { YieldsFirst (λ s. ids_from (P.Part.meaning s.part.now) s.from) };

    ghost remaining = { item_count (λ s. ids_from (P.Part.meaning s.part.now) s.from) };

    fn next(&mut self) -> Option<usize> {
        let id = self.part.next(self.from).unwrap()?;
        self.from = id + 1;
        Some(id)
    }
}

/// The ids of all edges where the part stands.
pub fn edge_ids<P: Part>(part: &P) -> Result<EdgeIds<'_, P>, Refusal>
    ensures ids { MatchResult result
        (λ x. ids_from (P.Part.meaning x.part.now) x.from ≡ ids_from (P.Part.meaning part.now) 0)
        (λ e. e ≡ Oversized) }
    ensures told { OnOk result (0 < (P.Part.meaning part.now).automaton.ceilings.edges) }
    ensures oversized { OnErr result ((P.Part.meaning part.now).automaton.ceilings.edges ≡ 0) }
{
    if part.ceilings().edges == 0 {
        return Err(Refusal::Oversized);
    }
    Ok(EdgeIds { part, from: 0 })
}
