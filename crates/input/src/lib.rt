// Bytes handed in, as the words of a sheet.
#![tactic(auto)]

ghost use Rattle.std.specs.Prelude.{◌≡◌, IfOk};
ghost use Rattle.input.specs.Bytes.{words_of, byte_check};

use std::alloc::{AllocError, Global};
use words::{Fault, Refusal, expect};

/// The most bytes that a sheet has: 3 + 256 + 4 * 2,048 words.
pub const MOST_BYTES: usize = 33_804;

/// Whether the bytes are whole words, and not more than a sheet has.
pub fn check_bytes(bytes: &[u8]) -> Result<(), Fault>
    ensures { byte_check bytes.now result }
{
    let count = bytes.len();
    expect(
        count % 4 == 0 && count <= MOST_BYTES,
        Refusal::Bytes,
        count.min(MOST_BYTES + 1),
    )
}

/// The words that the bytes spell, the lowest byte of each first.
pub fn decode(heap: Global, bytes: &[u8]) -> Result<Vec<u32>, AllocError>
    ensures { IfOk result (λ v. v.items ≡ words_of bytes.now) }
{
    let (fours, _) = bytes.as_chunks::<4>();
    fours
        .iter()
        .map(|four| u32::from_le_bytes(*four))
        .collect(heap)
}
