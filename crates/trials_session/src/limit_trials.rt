// The ends of what is answered: no byte, no size, no record, and the longest input.
use crate::scripts::{SIZES, answers};
use std::test::Fail;

#[test]
fn shortest_inputs(rt: HostRuntime) -> Result<(), Fail> {
    answers(&rt, &[], "no 16 r 0\n")?;
    for n in SIZES {
        answers(&rt, &[n], "")?;
    }
    Ok(())
}

// Whatever follows a number that is no size, one line answers it.
#[test]
fn no_size(rt: HostRuntime) -> Result<(), Fail> {
    let cases = [
        (0, "no 1 b 0\n"),
        (1, "no 1 b 1\n"),
        (2, "no 1 b 2\n"),
        (4, "no 1 b 4\n"),
        (9, "no 1 b 9\n"),
        (33, "no 1 b 33\n"),
        (37, "no 1 b 37\n"),
        (255, "no 1 b 255\n"),
    ];
    for (n, text) in cases {
        answers(&rt, &[n], text)?;
        answers(&rt, &[n, 1, 0, 1, b'C', 2], text)?;
    }
    Ok(())
}

// 4095 audits of five stations and a record of three bytes are 16,384 bytes. One byte more is too long, and that is looked
// at before the size.
#[test]
fn longest_input(rt: HostRuntime) -> Result<(), Fail> {
    let mut input = vec![in rt.alloc(); 5]?;
    let mut text = String::new(rt.alloc());
    for _ in 0..4095 {
        input.extend_from_slice(&[1, 0, 1, b'C'])?;
        text.push_str("sound\n")?;
    }
    input.extend_from_slice(&[1, 0, 0])?;
    text.push_str("no 18 r 16382\n")?;
    assert_eq!(rt; input.len(), 16_384);
    answers(&rt, input.as_slice(), text.as_str())?;
    input.push(1)?;
    answers(&rt, input.as_slice(), "no 19 r 16384\n")?;
    let zeros = vec![in rt.alloc(); 0; 16_385]?;
    answers(&rt, zeros.as_slice(), "no 19 r 16384\n")
}
