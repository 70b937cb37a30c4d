// Every pair is recovered, with one station out and with two.
use crate::areas::block_at;
use crate::lawful::{FIVE, SEVEN, lawful_row};
use audit::{Verdict, audit};
use code::place;
use kinds::{Block, BlockKind};
use recovery::recover;
use std::process::Abort;
use std::test::Fail;
use store::{ReadStore, Table, WriteStore, check_table};

// Each pair of a store is recovered as in the row.
pub fn recovers_each<S: ReadStore<Block = Block>>(
    rt: &impl Abort,
    store: &S,
    row: &[Block],
    work: &mut [Block],
) -> Result<(), Fail> {
    let n = store.size().number();
    for a in 0..n {
        for b in 0..n {
            let mut x = Block::zero();
            recover(store, a, b, work, &mut x)?;
            assert_eq!(rt; x, block_at(row, place(a, b))?);
        }
    }
    Ok(())
}

// So it is with stations i and j out and their blocks overwritten.
fn recovers(rt: &impl Abort, n: u8, i: u8, j: u8, row: &[Block; 28]) -> Result<(), Fail> {
    let mut held = *row;
    let lost = Block::from([0xEE; 64]);
    check_table(n, &held)?;
    let mut table = Table::make(n, &mut held);
    for k in 0..n {
        table.put(i, k, lost)?;
        table.put(j, k, lost)?;
    }
    table.take_out(i)?;
    if i != j {
        table.take_out(j)?;
    }
    recovers_each(rt, &table, row, &mut [lost; 56])
}

// The row keeps every rule, and each choice of one or two stations can be lost.
fn recovers_all(rt: &impl Abort, n: u8, row: &[Block; 28]) -> Result<(), Fail> {
    let mut held = *row;
    check_table(n, &held)?;
    assert_eq!(rt; audit(&Table::make(n, &mut held))?, Verdict::Sound);
    for i in 0..n {
        for j in 0..=i {
            recovers(rt, n, i, j, row)?;
        }
    }
    Ok(())
}

#[test]
fn five_stations(rt: HostRuntime) -> Result<(), Fail> {
    recovers_all(&rt, 5, &lawful_row(&FIVE))
}

#[test]
fn seven_stations(rt: HostRuntime) -> Result<(), Fail> {
    recovers_all(&rt, 7, &lawful_row(&SEVEN))
}
