// The table of an extension.
ghost use Rattle.std.specs.Prelude.{◌≡◌, true, []};
ghost use Rattle.bounded.specs.Listed.{listed};
ghost use Rattle.layers.specs.Extensions.{member, observed, adding, added};

use crate::table::Table;
use words::{Refusal, is_observable};

/// At most 32 observable actions.
#[derive(Drop)]
pub struct Extension {
    actions: Table<u32>,
    ghost seen: { observed (listed actions) ≡ true },
}

impl Extension {
    /// No actions.
    pub fn new() -> Extension
        ensures { listed result.actions ≡ [] }
    {
        Extension {
            actions: Table::new(),
        }
    }

    /// Adds an action; one that is in the table already is accepted and takes no place. Refused, and nothing changes,
    /// where the action is not observable, then where the table is full.
    pub fn add(&mut self, action: u32) -> Result<(), Refusal>
        ensures answer { result ≡ adding (listed self.old.actions) action }
        ensures after { listed self.new.actions ≡ added (listed self.old.actions) action }
    {
        if !is_observable(action) {
            return Err(Refusal::WrongKind);
        }
        if self.contains(action) {
            return Ok(());
        }
        self.actions
            .try_push(action)
            .map_err(|_| Refusal::TableFull)
    }

    /// Whether an action is in the table.
    pub(crate) fn contains(&self, action: u32) -> bool
        ensures { result ≡ member (listed self.now.actions) action }
    {
        self.actions.as_slice().contains(&action)
    }
}
