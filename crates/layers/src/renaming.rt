// The table of a renaming.
ghost use Rattle.std.specs.Prelude.{◌≡◌, true, []};
ghost use Rattle.bounded.specs.Listed.{listed};
ghost use Rattle.layers.specs.Renamings.{sound, pairing, target_of, is_source, image, adding, added};

use crate::pair::Pair;
use crate::table::Table;
use words::Refusal;

// Kept: a list that is searched from its front, since a map takes memory, and nothing is allocated where questions run.

/// At most 32 pairs of an action and what it is renamed to, no two of them with the same source.
///
/// All pairs are applied at once: what an action is renamed to is not renamed again.
#[derive(Drop)]
pub struct Renaming {
    pairs: Table<Pair>,
    ghost valid: { sound (listed pairs) ≡ true },
}

impl Renaming {
    /// No pairs: every action keeps its name.
    pub fn new() -> Renaming
        ensures { listed result.pairs ≡ [] }
    {
        Renaming {
            pairs: Table::new(),
        }
    }

    /// Adds a pair. Refused, and nothing changes, where the kinds do not fit, then where the source has a pair, then
    /// where the table is full.
    pub fn add(&mut self, source: u32, target: u32) -> Result<(), Refusal>
        ensures answer { result ≡ adding (listed self.old.pairs) (pairing source target) }
        ensures after { listed self.new.pairs ≡ added (listed self.old.pairs) (pairing source target) }
    {
        let pair = Pair { source, target };
        if !pair.is_right() {
            return Err(Refusal::WrongKind);
        }
        if self.is_source(source) {
            return Err(Refusal::SourcePresent);
        }
        self.pairs.try_push(pair).map_err(|_| Refusal::TableFull)
    }

    /// The pairs, in the order in which they were added.
    pub(crate) fn pairs(&self) -> &[Pair]
        ensures { result.now ≡ listed self.now.pairs }
    {
        self.pairs.as_slice()
    }

    /// What an action is renamed to; itself where it has no pair.
    pub(crate) fn image(&self, action: u32) -> u32
        ensures { result ≡ image (listed self.now.pairs) action }
    {
        self.target_of(action).unwrap_or(action)
    }

    /// Whether an action has a pair.
    pub(crate) fn is_source(&self, action: u32) -> bool
        ensures { result ≡ is_source (listed self.now.pairs) action }
    {
        self.target_of(action).is_some()
    }

    /// The target of the pair with a source.
    fn target_of(&self, source: u32) -> Option<u32>
        ensures { result ≡ target_of (listed self.now.pairs) source }
    {
        self.pairs()
            .iter()
            .find(|pair| pair.source == source)
            .map(|pair| pair.target)
    }
}
