// Recovery where more stations count as absent than are out.
use crate::areas::block_at;
use crate::lawful::{FIVE, lawful_row};
use code::{Marks, place};
use faults::Fault;
use kinds::{Block, BlockKind};
use recovery::{absent_marks, count_absent, few_absent, recover_beside};
use std::process::Abort;
use std::test::Fail;
use store::{Beside, ReadStore, Table, WriteStore, check_table};

fn marks(stations: &[u8]) -> Marks {
    let mut marks = Marks::none();
    for s in stations {
        marks = marks.with(*s, true);
    }
    marks
}

// What recovery of the pair of 4 and 1 answers where station 3 is out, and these are absent beside it.
fn recovers(rt: &impl Abort, beside: &[u8], answer: Result<(), Fault>) -> Result<(), Fail> {
    let row = lawful_row(&FIVE);
    let mut held = row;
    check_table(5, &held)?;
    let mut table = Table::make(5, &mut held);
    table.put(4, 1, Block::zero())?;
    table.take_out(3)?;
    let before = Block::from([9; 64]);
    let mut x = before;
    let work = &mut [Block::zero(); 40];
    assert_eq!(rt;
        recover_beside(&table, marks(beside), 4, 1, work, &mut x),
        answer
    );
    let wanted = if answer.is_err() {
        before
    } else if beside.contains(&1) || beside.contains(&4) {
        block_at(&row, place(4, 1))?
    } else {
        Block::zero()
    };
    assert_eq!(rt; x, wanted);
    Ok(())
}

// With neither station absent the stored block is given, which is wrong here.
#[test]
fn beside(rt: HostRuntime) -> Result<(), Fail> {
    let cases = [
        ("", Ok(())),
        ("\x01", Ok(())),
        ("\x04", Ok(())),
        ("\x01\x03", Ok(())),
        ("\x00\x02", Ok(())),
        ("\x00\x01", Err(Fault::TooManyAbsent(3))),
        ("\x01\x04", Err(Fault::TooManyAbsent(3))),
        ("\x00\x01\x02\x04", Err(Fault::TooManyAbsent(5))),
    ];
    for (beside, answer) in cases {
        recovers(&rt, beside.as_bytes(), answer)?;
    }
    Ok(())
}

// The stations that are absent where these are beside the ones that are out, as bits, how many, and whether there are too many.
fn counts<S: ReadStore>(
    rt: &impl Abort,
    store: &S,
    beside: &[u8],
    bits: u32,
    count: u8,
    answer: Result<(), Fault>,
) {
    let store = Beside {
        store,
        also: marks(beside),
    };
    assert_eq!(rt; u32::from(absent_marks(&store)), bits);
    assert_eq!(rt; count_absent(&store), count);
    assert_eq!(rt; few_absent(&store), answer);
}

#[test]
fn absent(rt: HostRuntime) -> Result<(), Fail> {
    let cases = [
        ("", 0b01000, 1, Ok(())),
        ("\x03", 0b01000, 1, Ok(())),
        ("\x04", 0b11000, 2, Ok(())),
        ("\x05\x1f", 0b01000, 1, Ok(())),
        ("\x00\x02", 0b01101, 3, Err(Fault::TooManyAbsent(3))),
    ];
    let mut row = lawful_row(&FIVE);
    check_table(5, &row)?;
    let mut table = Table::make(5, &mut row);
    table.take_out(3)?;
    for (beside, bits, count, answer) in cases {
        counts(&rt, &table, beside.as_bytes(), bits, count, answer);
    }
    Ok(())
}
