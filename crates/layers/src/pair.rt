// One pair of a renaming.
ghost use Rattle.std.specs.Prelude.{◌≡◌};
ghost use Rattle.layers.specs.Renamings.{right};

use words::{TAU, is_exception, is_observable};

/// An action and what it is renamed to.
#[derive(Clone, Copy, Default)]
pub(crate) struct Pair {
    pub source: u32,
    pub target: u32,
}

impl Pair {
    /// Whether the kinds fit: an observable action becomes observable or silent, an exception stays one.
    pub(crate) fn is_right(self) -> bool
        ensures { result ≡ right self }
    {
        if is_observable(self.source) {
            is_observable(self.target) || self.target == TAU
        } else {
            is_exception(self.source) && is_exception(self.target)
        }
    }
}
