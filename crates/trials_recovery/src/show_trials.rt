// The bytes of a pair of an image, and the recovery of an image's lost pairs.
use crate::areas::block_at;
use crate::lawful::{FIVE, lawful_row};
use crate::recover_trials::recovers_each;
use code::{pair_at, place};
use faults::Fault;
use image::{Image, ReadImage, check_image};
use kinds::{Block, BlockKind};
use std::process::Abort;
use std::test::Fail;
use store::WriteStore;

// The image that bytes are. The trials of the stores have it too; a crate for both would be no plainer, since it would owe a
// contract for these two lines.
pub fn image_in(bytes: &mut [u8]) -> Result<Image<'_>, Fault> {
    check_image(bytes)?;
    Ok(Image::make(bytes))
}

// Lays a row of blocks into the bytes of an image of five stations.
pub fn lay_image(row: &[Block; 28], bytes: &mut [u8]) -> Result<(), Fail> {
    let header = bytes.first_chunk_mut().ok_or("no header")?;
    *header = [1, 0, 0, 3, 0xC5, 5, 0, 0, 0, 0];
    let mut image = image_in(bytes)?;
    for (p, block) in row.iter().take(15).enumerate() {
        let pair = pair_at(p).ok_or("no such place")?;
        image.put(pair.larger, pair.smaller, *block)?;
    }
    Ok(())
}

// The same, with stations 1 and 4 lost.
fn lay_lost(row: &[Block; 28], bytes: &mut [u8]) -> Result<(), Fail> {
    lay_image(row, bytes)?;
    let mut image = image_in(bytes)?;
    image.take_out(1)?;
    image.take_out(4)?;
    Ok(())
}

#[test]
fn lost_pairs_of_an_image(rt: HostRuntime) -> Result<(), Fail> {
    let row = lawful_row(&FIVE);
    let mut bytes = [0; 970];
    lay_lost(&row, &mut bytes)?;
    check_image(&bytes)?;
    recovers_each(
        &rt,
        &ReadImage::make(&bytes),
        &row,
        &mut [Block::zero(); 40],
    )
}

// What an image shows of a pair.
fn shown<'a>(bytes: &'a [u8], a: u8, b: u8, second: &'a [u8]) -> Result<&'a [u8], Fault> {
    check_image(bytes)?;
    ReadImage::make(bytes).show(a, b, second)
}

// The first bytes of the second area are shown where station 1 or 4 is in the pair, else its own.
fn shown_right(rt: &impl Abort, bytes: &[u8], a: u8, b: u8, row: &[Block]) -> Result<(), Fail> {
    let lost = a == 1 || a == 4 || b == 1 || b == 4;
    let expected = if lost {
        [0xAB; 64]
    } else {
        *block_at(row, place(a, b))?.as_bytes()
    };
    assert_eq!(rt; shown(bytes, a, b, &[0xAB; 70]), Ok(expected.as_slice()));
    Ok(())
}

#[test]
fn shown_bytes(rt: HostRuntime) -> Result<(), Fail> {
    let row = lawful_row(&FIVE);
    let mut bytes = [0; 970];
    lay_lost(&row, &mut bytes)?;
    for a in 0..5 {
        for b in 0..5 {
            shown_right(&rt, &bytes, a, b, &row)?;
        }
    }
    Ok(())
}

// With a second area of this length, the showing of a pair is refused so.
fn show_refused(rt: &impl Abort, a: u8, b: u8, length: usize, fault: Fault) -> Result<(), Fail> {
    let mut bytes = [0; 970];
    lay_lost(&lawful_row(&FIVE), &mut bytes)?;
    let second = [0; 64];
    assert!(rt; length <= 64);
    assert_eq!(rt; shown(&bytes, a, b, &second[0..length]), Err(fault));
    Ok(())
}

#[test]
fn show_refusals(rt: HostRuntime) -> Result<(), Fail> {
    show_refused(&rt, 9, 9, 63, Fault::AreaTooShort(63))?;
    show_refused(&rt, 5, 9, 64, Fault::NoSuchStation(5))?;
    show_refused(&rt, 1, 9, 64, Fault::NoSuchStation(9))
}
