// Tables: which rows are refused, what a call refuses, and what it leaves of the row.
use crate::calls::{Refusal, marked, news, put_all, refusals};
use crate::samples::{PAIRS, sample_row};
use faults::Fault;
use kinds::{Block, BlockKind};
use std::process::Abort;
use std::test::Fail;
use store::{Table, WriteStore, check_table};

// The size is refused before the length.
#[test]
fn rows_refused(rt: HostRuntime) {
    let row = sample_row();
    let cases = [
        (2, 20, Fault::NotASize(2)),
        (9, 20, Fault::NotASize(9)),
        (33, 20, Fault::NotASize(33)),
        (2, 0, Fault::NotASize(2)),
        (9, 14, Fault::NotASize(9)),
        (33, 0, Fault::NotASize(33)),
        (3, 0, Fault::AreaTooShort(0)),
        (3, 5, Fault::AreaTooShort(5)),
        (5, 6, Fault::AreaTooShort(6)),
        (5, 14, Fault::AreaTooShort(14)),
        (7, 20, Fault::AreaTooShort(20)),
    ];
    for (n, length, fault) in cases {
        assert!(rt; length <= 20);
        assert_eq!(rt; check_table(n, &row[0..length]), Err(fault), "{}", n);
    }
}

#[test]
fn rows_passed(rt: HostRuntime) {
    let row = sample_row();
    for (n, length) in [(3, 6), (3, 7), (3, 20), (5, 15), (5, 16), (5, 20)] {
        assert!(rt; length <= 20);
        assert_eq!(rt; check_table(n, &row[0..length]), Ok(()), "{}", length);
    }
}

// Takes out the stations of these marks.
fn take_marked(table: &mut Table<'_, Block>, marks: u8) -> Result<(), Fail> {
    for s in 0..5u8 {
        if (marks >> s) & 1 == 1 {
            table.take_out(s)?;
        }
    }
    Ok(())
}

fn table_refuses(rt: &impl Abort, row: &mut [Block], refusal: Refusal) -> Result<(), Fail> {
    check_table(5, row)?;
    let mut table = Table::make(5, row);
    take_marked(&mut table, refusal.out)?;
    refusal.holds_on(rt, &mut table);
    Ok(())
}

#[test]
fn calls_refused(rt: HostRuntime) -> Result<(), Fail> {
    for refusal in refusals() {
        let mut row = sample_row();
        table_refuses(&rt, &mut row, refusal)?;
        assert_eq!(rt; row, sample_row());
    }
    Ok(())
}

// Puts at every pair, takes every station out and brings each in again.
fn use_all(rt: &impl Abort, row: &mut [Block]) -> Result<(), Fail> {
    check_table(5, row)?;
    let mut table = Table::make(5, row);
    put_all(rt, &mut table);
    take_marked(&mut table, 0b11111)?;
    marked(rt, &table, 0b11111);
    for s in 0..5 {
        table.bring_in(s)?;
    }
    marked(rt, &table, 0);
    Ok(())
}

#[test]
fn longer_row_keeps_its_tail(rt: HostRuntime) -> Result<(), Fail> {
    let mut expected = sample_row();
    for (slot, (larger, smaller)) in expected.iter_mut().zip(PAIRS) {
        *slot = news(larger, smaller);
    }
    let mut row = sample_row();
    use_all(&rt, &mut row)?;
    assert_eq!(rt; row, expected);
    Ok(())
}
