// Reads frames, one a line, runs them on a mesh, and prints deliveries and refusals.
#![tactic(auto)]

use runner::run::run;
use std::io::{Read, Write};

fn main(rt: HostRuntime) -> anyhow::Result<()> {
    print_run(&rt)
}

fn print_run(rt: &HostRuntime) -> anyhow::Result<()> {
    let mut input = Vec::new(rt.alloc());
    rt.stdin().read_to_end(&mut input)?;
    let lines = run(rt.alloc(), input.as_slice())?;
    rt.stdout().write_all(lines.as_slice())?;
    Ok(())
}
