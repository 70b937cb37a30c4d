// Lists of calls of a book of five stations, played with tickets that are stale.
use book::Book;
use faults::Fault;
use kinds::BlockKind;
use serve::{Call, Rack, Sort, Turn, retire, serve};
use std::alloc::Global;
use std::test::Fail;
use store::{ReadStore, Table, WriteStore, check_table};

// Calls by their stations, and by the length of the work area. What is written is a one.
pub fn write(a: u8, b: u8, area: usize) -> Call<bool> {
    let block = true;
    Call::Write { a, b, block, area }
}

pub fn read(a: u8, b: u8, area: usize) -> Call<bool> {
    Call::Read { a, b, area }
}

pub fn lose(station: u8) -> Call<bool> {
    Call::Lose { station }
}

pub fn fit(station: u8) -> Call<bool> {
    Call::Fit { station }
}

pub fn fill(station: u8, area: usize) -> Call<bool> {
    Call::Fill { station, area }
}

pub fn finish(station: u8) -> Call<bool> {
    Call::Finish { station }
}

pub fn abandon(station: u8, sort: Sort) -> Call<bool> {
    Call::Abandon { station, sort }
}

// Each list is served on the same book, opened anew, with the tickets that the lists before it left. As an array the three do
// not prove: the check does not follow exclusive slices that are moved out of one.
fn serve_all<S: WriteStore<Block = bool> + Drop>(
    heap: Global,
    store: S,
    first: &mut [Turn<bool>],
    second: &mut [Turn<bool>],
    last: &mut [Turn<bool>],
    work: &mut [bool],
) -> Result<(), Fault> {
    let mut book = Book::make(store);
    let mut rack = Rack::new(heap);
    let one = serve(&mut book, first, work, &mut rack);
    let two = serve(&mut book, second, work, &mut rack);
    let three = serve(&mut book, last, work, &mut rack);
    retire(&mut book, rack);
    one.and(two).and(three)
}

// What a list of calls answered, and what it left in the row and in the work area.
#[derive(Drop)]
pub struct Left {
    pub turns: Vec<Turn<bool>>,
    pub row: [bool; 15],
    pub work: [bool; 40],
}

// Station 1 is lost and filled up, and its full ticket is left.
fn leave_full() -> [Turn<bool>; 7] {
    let step = fill(1, 40);
    [lose(1), fit(1), step, step, step, step, step].map(Turn::from)
}

// Station 3 is lost and fitted, and its open ticket is left.
fn leave_open() -> [Turn<bool>; 2] {
    [lose(3), fit(3)].map(Turn::from)
}

// Makes the calls of some lists, one after the other, on a book that was opened, with a full ticket of station 1 and an
// open one of station 3 that are stale.
pub fn play(heap: Global, lists: &[&[Call<bool>]]) -> Result<Left, Fail> {
    let mut turns = Vec::new(heap);
    for calls in lists {
        turns.extend(calls.iter().copied().map(Turn::from))?;
    }
    let mut full = leave_full();
    let mut open = leave_open();
    let mut row = [true; 15];
    let mut work = [true; 40];
    // Here as in each trial a row is checked and made a table: the check does not follow a `Result` of a table, which a
    // function for both would answer.
    check_table(5, &row)?;
    let table = Table::make(5, &mut row);
    let list = turns.as_mut_slice();
    serve_all(heap, table, &mut full, &mut open, list, &mut work)?;
    Ok(Left { turns, row, work })
}
