// Images: what is refused, in which order, and what a sound one answers.
use crate::samples::{FIVE, PAIRS, SIZES, five, read_image, set, summed, zeros};
use faults::Fault;
use image::{ReadImage, check_image};
use kinds::Block;
use std::alloc::Global;
use std::process::Abort;
use std::test::Fail;
use store::ReadStore;

// What `check_image` answers on the image of five stations after some of its bytes are set.
fn answer_after(heap: Global, changes: &[(usize, u8)]) -> Result<Result<(), Fault>, Fail> {
    let mut bytes = five(heap, 0)?;
    for (at, value) in changes {
        set(bytes.as_mut_slice(), *at, *value)?;
    }
    Ok(check_image(bytes.as_slice()))
}

#[test]
fn one_byte_changed(rt: HostRuntime) -> Result<(), Fail> {
    let cases = [
        (0, 1, Ok(())),
        (0, 0, Err(Fault::WrongVersion(0))),
        (0, 2, Err(Fault::WrongVersion(0))),
        (1, 1, Err(Fault::WrongLength(970))),
        (2, 1, Err(Fault::WrongLength(970))),
        (3, 2, Err(Fault::WrongLength(970))),
        (4, 0xc4, Err(Fault::WrongLength(970))),
        (4, 0xc6, Err(Fault::WrongLength(970))),
        (5, 4, Err(Fault::NotASize(4))),
        (5, 2, Err(Fault::NotASize(2))),
        (5, 3, Err(Fault::WrongLength(970))),
        (5, 7, Err(Fault::WrongLength(970))),
        (6, 0x80, Err(Fault::StrayMarks)),
        (7, 0x01, Err(Fault::StrayMarks)),
        (8, 0x01, Err(Fault::StrayMarks)),
        (9, 0x20, Err(Fault::StrayMarks)),
        (9, 0x10, Ok(())),
        (9, 0x1f, Ok(())),
        (10, 0, Ok(())),
    ];
    for (at, value, answer) in cases {
        assert_eq!(rt; answer_after(rt.alloc(), &[(at, value)])?, answer, "{}", at);
    }
    Ok(())
}

// Where two checks fail, the first of version, size, lengths and marks is the answer.
#[test]
fn checks_in_order(rt: HostRuntime) -> Result<(), Fail> {
    let cases = [
        ((0, 0), (5, 4), Err(Fault::WrongVersion(0))),
        ((0, 0), (4, 0), Err(Fault::WrongVersion(0))),
        ((0, 0), (9, 0x20), Err(Fault::WrongVersion(0))),
        ((5, 4), (4, 0), Err(Fault::NotASize(4))),
        ((5, 4), (9, 0x20), Err(Fault::NotASize(4))),
        ((4, 0), (9, 0x20), Err(Fault::WrongLength(970))),
    ];
    for (one, other, answer) in cases {
        assert_eq!(rt; answer_after(rt.alloc(), &[one, other])?, answer);
    }
    Ok(())
}

#[test]
fn cut_at_every_length(rt: HostRuntime) -> Result<(), Fail> {
    let mut image = five(rt.alloc(), 0)?;
    let bytes = image.as_slice();
    assert!(rt; bytes.len() == 970);
    assert_eq!(rt; check_image(bytes), Ok(()));
    for length in 0..970 {
        assert_eq!(rt;
            check_image(&bytes[0..length]),
            Err(Fault::WrongLength(length))
        );
    }
    image.push(0)?;
    assert_eq!(rt; check_image(image.as_slice()), Err(Fault::WrongLength(971)));
    Ok(())
}

// Fewer than ten bytes are refused before the version is looked at.
#[test]
fn nine_and_ten_bytes(rt: HostRuntime) {
    assert_eq!(rt; check_image(&[]), Err(Fault::WrongLength(0)));
    assert_eq!(rt; check_image(&[2; 9]), Err(Fault::WrongLength(9)));
    assert_eq!(rt; check_image(&[2; 10]), Err(Fault::WrongVersion(0)));
    assert_eq!(rt; check_image(&[1; 10]), Err(Fault::NotASize(1)));
    assert_eq!(rt;
        check_image(&[1, 0, 0, 0, 5, 3, 0, 0, 0, 0]),
        Err(Fault::WrongLength(10))
    );
}

// Of each size: the mark of station n - 1 is accepted, that of station n is not.
#[test]
fn marks_at_the_edge(rt: HostRuntime) -> Result<(), Fail> {
    for (n, pairs) in SIZES {
        let last = zeros(rt.alloc(), n, pairs, 1u32.wrapping_shl(u32::from(n)) >> 1)?;
        assert_eq!(rt; check_image(last.as_slice()), Ok(()), "{}", n);
        let stray = zeros(rt.alloc(), n, pairs, 1u32.wrapping_shl(u32::from(n)))?;
        assert_eq!(rt;
            check_image(stray.as_slice()),
            Err(Fault::StrayMarks),
            "{}",
            n
        );
    }
    Ok(())
}

// Station numbers below five, at five and above.
const NUMBERS: [u8; 9] = [0, 1, 2, 3, 4, 5, 6, 31, 255];

// What is answered for the pair where stations 1 and 3 are out.
fn with_two_out(a: u8, b: u8) -> Result<(), Fault> {
    if let Some(s) = [a, b].into_iter().find(|s| *s >= 5) {
        return Err(Fault::NoSuchStation(s));
    }
    if let Some(s) = [1, 3].into_iter().find(|s| a == *s || b == *s) {
        return Err(Fault::StationOut(s));
    }
    Ok(())
}

// What stands at the pair of a and b.
fn expected(a: u8, b: u8) -> [u8; 64] {
    let pair = (a.max(b), a.min(b));
    let place = PAIRS.iter().position(|other| *other == pair);
    let summands = place.and_then(|p| FIVE.get(p)).copied();
    summed(summands.unwrap_or(0))
}

// A get answers so, and where it is refused it leaves the caller's place as it was.
fn gets(rt: &impl Abort, image: &ReadImage<'_>, a: u8, b: u8, answer: Result<(), Fault>) {
    let mut into = Block::from([0xab; 64]);
    assert_eq!(rt; image.get(a, b, &mut into), answer);
    let bytes = answer.map_or([0xab; 64], |()| expected(a, b));
    assert_eq!(rt; *into.as_bytes(), bytes);
}

#[test]
fn get_with_all_in(rt: HostRuntime) -> Result<(), Fail> {
    let bytes = five(rt.alloc(), 0)?;
    let image = read_image(bytes.as_slice())?;
    for a in 0..5 {
        for b in 0..5 {
            gets(&rt, &image, a, b, Ok(()));
        }
    }
    Ok(())
}

#[test]
fn get_with_two_out(rt: HostRuntime) -> Result<(), Fail> {
    let bytes = five(rt.alloc(), 0b01010)?;
    let image = read_image(bytes.as_slice())?;
    for a in NUMBERS {
        for b in NUMBERS {
            gets(&rt, &image, a, b, with_two_out(a, b));
        }
    }
    Ok(())
}

#[test]
fn size_and_is_in(rt: HostRuntime) -> Result<(), Fail> {
    let bytes = five(rt.alloc(), 0b01010)?;
    let image = read_image(bytes.as_slice())?;
    assert_eq!(rt; image.size().number(), 5);
    for s in 0..5 {
        assert_eq!(rt; image.is_in(s), Ok(s != 1 && s != 3));
    }
    for s in 5..=255 {
        assert_eq!(rt; image.is_in(s), Err(Fault::NoSuchStation(s)));
    }
    Ok(())
}
