// Audits: lawful images, a flipped bit in each pair, and stations that are out.
use crate::samples::{PAIRS, five, flip, read_image, three};
use audit::{Verdict, audit, audit_beside, first_absent};
use code::Marks;
use faults::Fault;
use std::process::Abort;
use std::test::Fail;
use store::{Beside, ReadStore};

// The audit of an image answers so, in a case of this number.
fn audits(
    rt: &impl Abort,
    bytes: &[u8],
    answer: Result<Verdict, Fault>,
    case: usize,
) -> Result<(), Fail> {
    assert_eq!(rt; audit(&read_image(bytes)?), answer, "{}", case);
    Ok(())
}

#[test]
fn lawful_images(rt: HostRuntime) -> Result<(), Fail> {
    audits(&rt, three(rt.alloc(), 0)?.as_slice(), Ok(Verdict::Sound), 3)?;
    audits(&rt, five(rt.alloc(), 0)?.as_slice(), Ok(Verdict::Sound), 5)
}

// The first rule that a flipped bit at a pair of five stations breaks.
fn first_rule(larger: u8, smaller: u8) -> Verdict {
    if larger == smaller {
        Verdict::BrokenDiagonal(larger.wrapping_add(smaller) % 5)
    } else {
        Verdict::BrokenNeighbourhood(smaller)
    }
}

#[test]
fn one_bit_flipped(rt: HostRuntime) -> Result<(), Fail> {
    for (p, (larger, smaller)) in PAIRS.into_iter().enumerate() {
        let mut bytes = five(rt.alloc(), 0)?;
        flip(bytes.as_mut_slice(), p)?;
        audits(&rt, bytes.as_slice(), Ok(first_rule(larger, smaller)), p)?;
    }
    Ok(())
}

// The smallest station below five that is marked.
fn smallest(marks: u32) -> Option<u8> {
    (0..5).find(|s| (marks >> *s) & 1 == 1)
}

#[test]
fn stations_out(rt: HostRuntime) -> Result<(), Fail> {
    for marks in 0..32 {
        let answer = smallest(marks).map_or(Ok(Verdict::Sound), |s| Err(Fault::AbsentAtAudit(s)));
        let image = five(rt.alloc(), marks)?;
        audits(&rt, image.as_slice(), answer, marks as usize)?;
    }
    Ok(())
}

// Stations that count as absent beside those that are out: here station 3 is out.
#[test]
fn stations_beside(rt: HostRuntime) -> Result<(), Fail> {
    let bytes = five(rt.alloc(), 0b01000)?;
    let store = read_image(bytes.as_slice())?;
    for also in 0..64 {
        let beside = Beside {
            store: &store,
            also: Marks::from(also),
        };
        let first = smallest(also | 0b01000);
        assert_eq!(rt; first_absent(&beside), first, "{}", also);
        assert_eq!(rt;
            audit_beside(&store, beside.also),
            Err(Fault::AbsentAtAudit(first.ok_or("none")?))
        );
        for s in 0..=255 {
            assert_eq!(rt; beside.is_out(s), s == 3 || s < 5 && (also >> s) & 1 == 1);
        }
    }
    Ok(())
}

// A station from n on is none, so that it keeps no audit from its answer.
#[test]
fn stations_past_the_last(rt: HostRuntime) -> Result<(), Fail> {
    let bytes = five(rt.alloc(), 0)?;
    let store = read_image(bytes.as_slice())?;
    let beside = Beside {
        store: &store,
        also: Marks::from(0b100000),
    };
    assert_eq!(rt; first_absent(&beside), None);
    assert_eq!(rt;
        audit_beside(&store, Marks::from(0b100000)),
        Ok(Verdict::Sound)
    );
    assert_eq!(rt;
        audit_beside(&store, Marks::from(0b010000)),
        Err(Fault::AbsentAtAudit(4))
    );
    Ok(())
}
