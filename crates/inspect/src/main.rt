// Inspects a saved image: reads it from standard input and prints what it holds.
#![tactic(auto)]

use image::LONGEST;
use std::io::Read;

// One byte more than the longest image has.
const LIMIT: u64 = LONGEST as u64 + 1;

fn run(rt: &HostRuntime) -> anyhow::Result<()> {
    let mut bytes = Vec::new(rt.alloc());
    rt.stdin().take(LIMIT).read_to_end(&mut bytes)?;
    let text = report::inspect(rt.alloc(), bytes.as_slice())?;
    print!(rt; "{text}")?;
    Ok(())
}

fn main(rt: HostRuntime) -> anyhow::Result<()> {
    run(&rt)
}
