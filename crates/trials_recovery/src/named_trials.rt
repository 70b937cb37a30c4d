// Calls with a further set of absent stations over a table whose type is named: `Beside` of it cannot stand as a type there.
use crate::lawful::{FIVE, lawful_row};
use audit::{first_absent_beside, is_absent};
use code::{Marks, Pair};
use kinds::{Block, BlockKind};
use recovery::{absent_marks_beside, count_absent_beside, rebuild_two_beside};
use std::process::Abort;
use std::test::Fail;
use store::{ReadStore, Table, WriteStore, check_table};

#[test]
fn named_table(rt: HostRuntime) -> Result<(), Fail> {
    let mut row = lawful_row(&FIVE);
    check_table(5, &row)?;
    let mut table = Table::make(5, &mut row);
    table.take_out(3)?;
    let also = Marks::none().with(4, true);
    assert_eq!(rt; count_absent_beside(&table, also), 2);
    assert_eq!(rt; u32::from(absent_marks_beside(&table, also)), 0b11000);
    assert_eq!(rt; first_absent_beside(&table, also), Some(3));
    for (s, absent) in [(2, false), (3, true), (4, true), (5, false)] {
        assert_eq!(rt; is_absent(&table, also, s), absent);
    }
    let work = &mut [Block::zero(); 40];
    let pair = Pair {
        larger: 4,
        smaller: 3,
    };
    assert_eq!(rt; rebuild_two_beside(&table, also, work)?, Some(pair));
    // The rows of 3 and 4, each with the places of its pairs.
    let kept = lawful_row(&FIVE);
    for (k, p) in [6, 7, 8, 9, 13, 10, 11, 12, 13, 14].into_iter().enumerate() {
        assert_eq!(rt; work.get(k).copied(), kept.get(p).copied());
    }
    Ok(())
}
