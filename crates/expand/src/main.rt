// Reads a model sheet from standard input and prints the edges at its start, or why it is refused.
#![tactic(auto)]

use report::expansion;
use std::io::{Read, Write};

/// One byte more than a sheet has: enough to know that an input is too long.
const MOST_READ: u64 = 33_805;

fn main(rt: HostRuntime) -> anyhow::Result<()> {
    let mut bytes = Vec::new(rt.alloc());
    rt.stdin().take(MOST_READ).read_to_end(&mut bytes)?;
    let text = expansion(rt.alloc(), &bytes)?;
    rt.stdout().write_all(&text)?;
    Ok(())
}
