// The table of a layer.
use bounded::Bounded;

/// At most 32 entries, in the order in which they were added.
pub(crate) type Table<T> = Bounded<T, 32>;
