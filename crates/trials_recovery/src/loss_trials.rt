// Recovery and audit of an image after two of its stations were taken out.
use crate::lawful::{FIVE, lawful_row};
use crate::recover_trials::recovers_each;
use crate::show_trials::{image_in, lay_image};
use audit::{Verdict, audit};
use faults::Fault;
use kinds::{Block, BlockKind};
use std::process::Abort;
use std::test::Fail;
use store::WriteStore;

// Stations i and j are taken out of a sound image, in this order; the audit names the smallest that is out, and each pair is
// recovered as it was.
fn loses(
    rt: &impl Abort,
    bytes: &mut [u8; 970],
    i: u8,
    j: u8,
    row: &[Block; 28],
) -> Result<(), Fail> {
    let mut image = image_in(bytes)?;
    assert_eq!(rt; audit(&image), Ok(Verdict::Sound), "{}", i);
    image.take_out(i)?;
    assert_eq!(rt; audit(&image), Err(Fault::AbsentAtAudit(i)));
    image.take_out(j)?;
    assert_eq!(rt; audit(&image), Err(Fault::AbsentAtAudit(i.min(j))));
    recovers_each(rt, &image, row, &mut [Block::zero(); 40])
}

#[test]
fn two_taken_out(rt: HostRuntime) -> Result<(), Fail> {
    let row = lawful_row(&FIVE);
    let mut sound = [0; 970];
    lay_image(&row, &mut sound)?;
    for i in 0..5 {
        for j in 0..5 {
            if i != j {
                let mut bytes = sound;
                loses(&rt, &mut bytes, i, j, &row)?;
            }
        }
    }
    Ok(())
}
