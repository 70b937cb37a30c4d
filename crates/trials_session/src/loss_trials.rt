// Sessions that write, lose, replace and read.
use crate::scripts::{Line, Record, SIZES, plays};
use std::alloc::AllocError;
use std::test::Fail;

#[test]
fn worked_example(rt: HostRuntime) -> Result<(), Fail> {
    let script = [
        (Record::Write(0, 0, 0x2a), Line::Done),
        (Record::Lose(0), Line::Done),
        (Record::Read(0, 0), Line::Shows(0x2a)),
        (Record::Read(7, 0), Line::No(4, 's', 7)),
        (Record::Lose(0), Line::No(6, 'b', 0)),
        (Record::Replace(0), Line::Done),
        (Record::Audit, Line::Sound),
    ];
    plays(&rt, 5, &script)
}

// Stations 0, 1 and 2 of five are data stations. A refusal changes nothing.
#[test]
fn refused_orders(rt: HostRuntime) -> Result<(), Fail> {
    let script = [
        (Record::Read(1, 2), Line::Shows(0)),
        (Record::Write(2, 1, 0xf0), Line::Done),
        (Record::Read(5, 9), Line::No(4, 's', 5)),
        (Record::Read(9, 5), Line::No(4, 's', 9)),
        (Record::Read(3, 5), Line::No(4, 's', 5)),
        (Record::Read(255, 3), Line::No(4, 's', 255)),
        (Record::Write(5, 3, 1), Line::No(4, 's', 5)),
        (Record::Write(4, 6, 1), Line::No(4, 's', 6)),
        (Record::Read(3, 0), Line::No(5, 'b', 3)),
        (Record::Read(3, 4), Line::No(5, 'b', 4)),
        (Record::Write(3, 3, 1), Line::No(5, 'b', 3)),
        (Record::Write(1, 3, 1), Line::No(5, 'b', 3)),
        (Record::Lose(5), Line::No(4, 's', 5)),
        (Record::Replace(5), Line::No(4, 's', 5)),
        (Record::Replace(1), Line::No(7, 'b', 1)),
        (Record::Audit, Line::Sound),
        (Record::Lose(1), Line::Done),
        (Record::Lose(1), Line::No(6, 'b', 1)),
        (Record::Replace(2), Line::No(7, 'b', 2)),
        (Record::Audit, Line::No(12, 'b', 1)),
        (Record::Read(2, 1), Line::Shows(0xf0)),
        (Record::Replace(1), Line::Done),
        (Record::Replace(1), Line::No(7, 'b', 1)),
        (Record::Read(1, 2), Line::Shows(0xf0)),
        (Record::Audit, Line::Sound),
    ];
    plays(&rt, 5, &script)
}

// With three absent, a pair of two standing stations can still be read, and stations can be lost.
#[test]
fn three_absent(rt: HostRuntime) -> Result<(), Fail> {
    let script = [
        (Record::Write(0, 1, 0x11), Line::Done),
        (Record::Lose(4), Line::Done),
        (Record::Lose(2), Line::Done),
        (Record::Write(2, 2, 0x33), Line::Done),
        (Record::Lose(3), Line::Done),
        (Record::Read(2, 0), Line::No(9, 'b', 3)),
        (Record::Read(2, 2), Line::No(9, 'b', 3)),
        (Record::Read(1, 0), Line::Shows(0x11)),
        (Record::Read(4, 2), Line::No(5, 'b', 4)),
        (Record::Write(2, 0, 1), Line::No(9, 'b', 3)),
        (Record::Write(0, 1, 1), Line::No(9, 'b', 3)),
        (Record::Replace(2), Line::No(9, 'b', 3)),
        (Record::Replace(0), Line::No(7, 'b', 0)),
        (Record::Audit, Line::No(12, 'b', 2)),
        (Record::Lose(3), Line::No(6, 'b', 3)),
        (Record::Lose(0), Line::Done),
        (Record::Read(0, 1), Line::No(9, 'b', 4)),
        (Record::Read(1, 1), Line::Shows(0)),
        (Record::Audit, Line::No(12, 'b', 0)),
    ];
    plays(&rt, 5, &script)
}

// The data pairs of five stations, the larger station first.
const DATA_PAIRS: [(u8, u8); 6] = [(0, 0), (1, 0), (1, 1), (2, 0), (2, 1), (2, 2)];

// A byte of its own for each data pair of five stations, in a round of writes.
fn byte_of(round: u8, a: u8, b: u8) -> u8 {
    round.wrapping_add(a.wrapping_mul(4)).wrapping_add(b)
}

// Writes every data pair, the larger station first.
fn write_all(script: &mut Vec<(Record, Line)>, round: u8) -> Result<(), AllocError> {
    for (a, b) in DATA_PAIRS {
        script.push((Record::Write(a, b, byte_of(round, a, b)), Line::Done))?;
    }
    Ok(())
}

// Reads them back, the smaller station first.
fn read_all(script: &mut Vec<(Record, Line)>, round: u8) -> Result<(), AllocError> {
    for (a, b) in DATA_PAIRS {
        script.push((Record::Read(b, a), Line::Shows(byte_of(round, a, b))))?;
    }
    Ok(())
}

// Two stations are lost and replaced, with a round of writes before, between and after; each is read back.
fn lose_two(script: &mut Vec<(Record, Line)>, s: u8, t: u8) -> Result<(), AllocError> {
    write_all(script, 0x10)?;
    script.push((Record::Lose(s), Line::Done))?;
    script.push((Record::Lose(t), Line::Done))?;
    read_all(script, 0x10)?;
    write_all(script, 0x80)?;
    script.push((Record::Replace(s), Line::Done))?;
    read_all(script, 0x80)?;
    write_all(script, 0xf0)?;
    script.push((Record::Replace(t), Line::Done))?;
    script.push((Record::Audit, Line::Sound))?;
    read_all(script, 0xf0)
}

#[test]
fn any_two_of_five(rt: HostRuntime) -> Result<(), Fail> {
    for s in 0..5 {
        for t in 0..5 {
            if s != t {
                let mut script = Vec::new(rt.alloc());
                lose_two(&mut script, s, t)?;
                plays(&rt, 5, script.as_slice())?;
            }
        }
    }
    Ok(())
}

// Of each size: the largest data station and the last check station are lost and replaced.
#[test]
fn every_size(rt: HostRuntime) -> Result<(), Fail> {
    for n in SIZES {
        let data = n.wrapping_sub(3);
        let check = n.wrapping_sub(2);
        let last = n.wrapping_sub(1);
        let script = [
            (Record::Write(data, 0, 0xc3), Line::Done),
            (Record::Read(0, n), Line::No(4, 's', n)),
            (Record::Read(0, check), Line::No(5, 'b', check)),
            (Record::Lose(data), Line::Done),
            (Record::Lose(last), Line::Done),
            (Record::Read(0, data), Line::Shows(0xc3)),
            (Record::Replace(last), Line::Done),
            (Record::Replace(data), Line::Done),
            (Record::Audit, Line::Sound),
            (Record::Read(data, 0), Line::Shows(0xc3)),
        ];
        plays(&rt, n, &script)?;
    }
    Ok(())
}
