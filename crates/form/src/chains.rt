// What is wrong in chains: a key that comes twice, too many assignments, too much weight.
ghost use Rattle.std.specs.Prelude.{◌≡◌};
ghost use Rattle.form.specs.Chains.{repeats, overlong, repeat_check, chain_check};

use sheet::{Kind, Reader};
use words::{Fault, NONE, Refusal, expect_each};

const MOST_ASSIGNMENTS: usize = 64;

const MOST_TOTAL: u64 = 65_535;

/// Whether a record's variable or exception occurs again later in its chain.
#[tactic(auto, using(sheet::proofs::Numbered::numbered), unfolding(sheet::specs::Kinds::kind_named, crate::specs::Chains::repeats))]
fn repeats(reader: &Reader<'_>, number: u32) -> bool
    ensures { result ≡ repeats reader.now.words.now number }
{
    let record = reader.record(number);
    match record.kind() {
        Some(Kind::Assignment | Kind::Catch) => reader.survey(record.three, record.key()).keyed,
        _ => false,
    }
}

/// The lowest record whose variable or exception occurs again later in its chain.
pub(crate) fn check_repeats(reader: &Reader<'_>) -> Result<(), Fault>
    ensures { repeat_check reader.now.words.now result }
{
    expect_each(
        reader.records(),
        Refusal::Repeat,
        0,
        |number| !repeats(reader, number),
    )
}

/// Whether the chain from a record on is too long or too heavy.
#[tactic(auto, using(sheet::proofs::Numbered::numbered), unfolding(sheet::specs::Kinds::kind_named, crate::specs::Chains::overlong))]
fn overlong(reader: &Reader<'_>, number: u32) -> bool
    ensures { result ≡ overlong reader.now.words.now number }
{
    match reader.record(number).kind() {
        Some(Kind::Assignment) => reader.survey(number, NONE).length > MOST_ASSIGNMENTS,
        Some(Kind::Branch) => reader.survey(number, NONE).weight > MOST_TOTAL,
        _ => false,
    }
}

/// The lowest record whose chain has too many assignments or too much weight.
pub(crate) fn check_chains(reader: &Reader<'_>) -> Result<(), Fault>
    ensures { chain_check reader.now.words.now result }
{
    expect_each(
        reader.records(),
        Refusal::Chain,
        0,
        |number| !overlong(reader, number),
    )
}
