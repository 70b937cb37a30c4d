// Images of five stations: what a call refuses, and which bytes it changes.
use crate::calls::{news, put_all, refusals};
use crate::samples::{PAIRS, blocks_of, image_of, sample_row};
use faults::Fault;
use image::{Image, ReadImage, check_image};
use kinds::{Block, BlockKind};
use std::process::Abort;
use std::test::Fail;
use store::{ReadStore, WriteStore};

// The image that bytes are. The trials of recovery have it too, and say why.
fn image_in(bytes: &mut [u8]) -> Result<Image<'_>, Fault> {
    check_image(bytes)?;
    Ok(Image::make(bytes))
}

#[test]
fn calls_refused(rt: HostRuntime) -> Result<(), Fail> {
    for refusal in refusals() {
        let before = image_of(&sample_row(), refusal.out);
        let mut bytes = before;
        refusal.holds_on(&rt, &mut image_in(&mut bytes)?);
        assert!(rt; bytes == before, "{:?}", refusal.call);
    }
    Ok(())
}

// The bytes after every pair was put: the header stays.
fn put_bytes(before: &[u8; 970]) -> [u8; 970] {
    let mut bytes = *before;
    for (slot, (larger, smaller)) in blocks_of(&mut bytes).iter_mut().zip(PAIRS) {
        *slot = *news(larger, smaller).as_bytes();
    }
    bytes
}

// Read back, each pair has what was put.
fn reads_back(rt: &impl Abort, bytes: &[u8]) -> Result<(), Fail> {
    check_image(bytes)?;
    let image = ReadImage::make(bytes);
    for a in 0..5 {
        for b in 0..5 {
            let mut got = Block::zero();
            assert_eq!(rt; image.get(a, b, &mut got), Ok(()));
            assert_eq!(rt; got, news(a.max(b), a.min(b)));
        }
    }
    Ok(())
}

#[test]
fn put_at_every_pair(rt: HostRuntime) -> Result<(), Fail> {
    let before = image_of(&sample_row(), 0);
    let mut bytes = before;
    put_all(&rt, &mut image_in(&mut bytes)?);
    assert!(rt; bytes == put_bytes(&before));
    reads_back(&rt, &bytes)
}

// The bytes after station s was taken out: its mark is added, and each of its blocks is filled.
fn lost_bytes(before: &[u8; 970], s: u8) -> [u8; 970] {
    let mut bytes = *before;
    for (slot, (larger, smaller)) in blocks_of(&mut bytes).iter_mut().zip(PAIRS) {
        if larger == s || smaller == s {
            *slot = [0xEE; 64];
        }
    }
    bytes[9] |= 1u8.wrapping_shl(u32::from(s));
    bytes
}

// Station s is taken out beside those of the marks, and brought in again; only its mark is taken back.
fn out_and_in(rt: &impl Abort, marks: u8, s: u8) -> Result<(), Fail> {
    let mut bytes = image_of(&sample_row(), marks);
    let mut expected = lost_bytes(&bytes, s);
    assert_eq!(rt; image_in(&mut bytes)?.take_out(s), Ok(()), "{}", s);
    assert!(rt; bytes == expected, "{}", s);
    assert_eq!(rt; image_in(&mut bytes)?.bring_in(s), Ok(()), "{}", s);
    expected[9] = marks;
    assert!(rt; bytes == expected, "{}", s);
    Ok(())
}

// Each station, beside every choice of others that are out.
#[test]
fn take_out_and_bring_in(rt: HostRuntime) -> Result<(), Fail> {
    for s in 0..5u8 {
        for marks in 0..32u8 {
            if (marks >> s) & 1 == 0 {
                out_and_in(&rt, marks, s)?;
            }
        }
    }
    Ok(())
}
