// Answers the orders on standard input: the number of stations in one byte, then records; a line for each.
#![tactic(auto)]

use std::io::{Read, Write};

// Reads one byte more than a session may have, so that one that is too long is seen.
fn run(rt: &HostRuntime) -> anyhow::Result<()> {
    let mut input = Vec::new(rt.alloc());
    rt.stdin()
        .take(transcript::LIMIT as u64 + 1)
        .read_to_end(&mut input)?;
    let text = transcript::transcribe(rt.alloc(), input.as_slice())?;
    rt.stdout().write_all(text.as_slice())?;
    Ok(())
}

fn main(rt: HostRuntime) -> anyhow::Result<()> {
    run(&rt)
}
