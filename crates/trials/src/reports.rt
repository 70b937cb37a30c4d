// The text of a report.
use crate::samples::{five, flip, set, three};
use report::{hex_text, inspect};
use std::process::Abort;
use std::test::Fail;

// A refused image has no other line; else the lines of the pairs follow.
fn inspects(rt: &(impl Abort + AllocGlobal), bytes: &[u8], text: &str) -> Result<(), Fail> {
    assert!(rt; inspect(rt.alloc(), bytes)?.as_str().starts_with(text));
    Ok(())
}

#[test]
fn sound(rt: HostRuntime) -> Result<(), Fail> {
    let heap = rt.alloc();
    inspects(&rt, three(heap, 0)?.as_slice(), "size 3\nout none\nsound\n")?;
    inspects(&rt, five(heap, 0)?.as_slice(), "size 5\nout none\nsound\n")
}

// A bit is flipped in the pair of 1 and 2, and in that of 3 with itself.
#[test]
fn broken(rt: HostRuntime) -> Result<(), Fail> {
    let heap = rt.alloc();
    for (place, text) in [
        (4, "size 5\nout none\nbroken S 1\n"),
        (9, "size 5\nout none\nbroken D 1\n"),
    ] {
        let mut bytes = five(heap, 0)?;
        flip(bytes.as_mut_slice(), place)?;
        inspects(&rt, bytes.as_slice(), text)?;
    }
    Ok(())
}

#[test]
fn out(rt: HostRuntime) -> Result<(), Fail> {
    let heap = rt.alloc();
    let cases = [
        (0b00001, "size 5\nout 0\nno 12 b 0\n"),
        (0b10010, "size 5\nout 1 4\nno 12 b 1\n"),
        (0b11111, "size 5\nout 0 1 2 3 4\nno 12 b 0\n"),
    ];
    for (marks, text) in cases {
        inspects(&rt, five(heap, marks)?.as_slice(), text)?;
    }
    Ok(())
}

#[test]
fn refused(rt: HostRuntime) -> Result<(), Fail> {
    let heap = rt.alloc();
    inspects(&rt, &[], "no 13 r 0\n")?;
    for (at, value, text) in [
        (0, 2, "no 14 r 0\n"),
        (5, 4, "no 1 b 4\n"),
        (4, 0, "no 13 r 970\n"),
        (9, 0x20, "no 15 r 6\n"),
    ] {
        let mut bytes = five(heap, 0)?;
        set(bytes.as_mut_slice(), at, value)?;
        inspects(&rt, bytes.as_slice(), text)?;
    }
    Ok(())
}

// Bytes of any length as digits.
#[test]
fn digits_of_bytes(rt: HostRuntime) -> Result<(), Fail> {
    let heap = rt.alloc();
    let cases = [
        ("", ""),
        ("\x00", "00"),
        ("\x1f", "1f"),
        ("az\x09", "617a09"),
    ];
    for (bytes, text) in cases {
        assert_eq!(rt; hex_text(heap, bytes.as_bytes())?.as_str(), text);
    }
    Ok(())
}
