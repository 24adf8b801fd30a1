// Prints, for each sheet named as an argument, its name and what is printed of the sheet.
#![tactic(auto)]

use report::expansion;
use std::io::Write;
use std::{env, fs};

fn show(rt: &HostRuntime, name: &str) -> anyhow::Result<()> {
    let bytes = fs::read(rt, name)?;
    let text = expansion(rt.alloc(), &bytes)?;
    rt.println(name)?;
    rt.stdout().write_all(&text)?;
    Ok(())
}

fn main(rt: HostRuntime) -> anyhow::Result<()> {
    for name in env::args(&rt)?.skip(1) {
        show(&rt, name.as_str())?;
    }
    Ok(())
}
