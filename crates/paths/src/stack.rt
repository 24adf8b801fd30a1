// A short list of words.
use bounded::Bounded;

/// At most 128 words, in the order in which they were put.
pub type Stack = Bounded<u32, 128>;
