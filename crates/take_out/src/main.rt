// Shows an image before and after its stations 1 and 4 are taken out: the blocks that are rebuilt are the ones it had.
#![tactic(auto)]

use faults::Fault;
use image::{Image, LONGEST, check_image};
use std::io::Read;
use store::WriteStore;

// One byte more than the longest image has.
const LIMIT: u64 = LONGEST as u64 + 1;

fn take_out(bytes: &mut [u8], s: u8) -> Result<(), Fault> {
    check_image(bytes)?;
    Image::make(bytes).take_out(s)
}

fn show(rt: &HostRuntime, bytes: &[u8]) -> anyhow::Result<()> {
    let text = report::inspect(rt.alloc(), bytes)?;
    print!(rt; "{text}")?;
    Ok(())
}

fn run(rt: &HostRuntime) -> anyhow::Result<()> {
    let mut bytes = Vec::new(rt.alloc());
    rt.stdin().take(LIMIT).read_to_end(&mut bytes)?;
    show(rt, bytes.as_slice())?;
    for s in [1, 4] {
        println!(rt; "take out {s}")?;
        if let Err(fault) = take_out(bytes.as_mut_slice(), s) {
            println!(rt; "no {fault}")?;
        }
        show(rt, bytes.as_slice())?;
    }
    Ok(())
}

fn main(rt: HostRuntime) -> anyhow::Result<()> {
    run(&rt)
}
