// What recovery and patterns refuse, in which order, and that a refusal changes nothing.
use crate::lawful::{FIVE, lawful_row, sample};
use code::Size;
use faults::Fault;
use kinds::Block;
use recovery::{pattern, recover};
use std::process::Abort;
use std::test::Fail;
use store::{ReadStore, Table, WriteStore, check_table};

// The recovery of a pair is refused so, and leaves the work area and the caller's place as they were.
fn refused_by<S: ReadStore<Block = Block>>(
    rt: &impl Abort,
    store: &S,
    a: u8,
    b: u8,
    work: &mut [Block],
    mark: Block,
    fault: Fault,
) {
    let mut into = mark;
    assert_eq!(rt; recover(store, a, b, work, &mut into), Err(fault));
    assert_eq!(rt; into, mark);
    assert!(rt; work.iter().all(|x| *x == mark));
}

// That of five stations with 0, 1 and 2 out, with a work area of this length.
fn recover_refused(rt: &impl Abort, a: u8, b: u8, length: usize, fault: Fault) -> Result<(), Fail> {
    let mut row = lawful_row(&FIVE);
    check_table(5, &row)?;
    let mut table = Table::make(5, &mut row);
    for s in [0, 1, 2] {
        table.take_out(s)?;
    }
    let mark = sample(77);
    let mut work = [mark; 40];
    assert!(rt; length <= 40);
    refused_by(rt, &table, a, b, &mut work[0..length], mark, fault);
    Ok(())
}

#[test]
fn of_recover(rt: HostRuntime) -> Result<(), Fail> {
    recover_refused(&rt, 9, 9, 39, Fault::AreaTooShort(39))?;
    recover_refused(&rt, 7, 9, 40, Fault::NoSuchStation(7))?;
    recover_refused(&rt, 0, 5, 40, Fault::NoSuchStation(5))?;
    recover_refused(&rt, 3, 0, 40, Fault::TooManyAbsent(3))?;
    recover_refused(&rt, 2, 4, 40, Fault::TooManyAbsent(3))
}

// With areas of these lengths the pattern of a pair is refused so, and leaves both as they were.
#[test]
fn of_pattern(rt: HostRuntime) -> Result<(), Fail> {
    let cases = [
        (9, 9, 39, 14, Fault::AreaTooShort(39)),
        (9, 9, 40, 14, Fault::AreaTooShort(14)),
        (5, 9, 40, 15, Fault::NoSuchStation(5)),
        (3, 9, 40, 15, Fault::NoSuchStation(9)),
        (3, 0, 40, 15, Fault::CheckPair(3)),
        (4, 3, 40, 15, Fault::CheckPair(4)),
    ];
    for (a, b, work_length, bits_length, fault) in cases {
        let mut work = [true; 40];
        let mut bits = [true; 15];
        assert!(rt; work_length <= 40 && bits_length <= 15);
        let short_work = &mut work[0..work_length];
        let short_bits = &mut bits[0..bits_length];
        assert_eq!(rt;
            pattern(Size::try_from(5)?, a, b, short_work, short_bits),
            Err(fault)
        );
        assert!(rt; work == [true; 40]);
        assert!(rt; bits == [true; 15]);
    }
    Ok(())
}
