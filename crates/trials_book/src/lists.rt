// One long list of calls over a table and over an image of five stations: stations are lost and swapped, up to three
// absent at a time, and each read gives the last write.
use audit::Verdict;
use book::Book;
use faults::Fault;
use image::{Image, check_image};
use kinds::{Block, BlockKind};
use serve::{Answer, Call, Rack, Turn, retire, serve};
use std::alloc::{AllocError, Global};
use std::array;
use std::process::Abort;
use std::test::Fail;
use store::{ReadStore, Table, WriteStore, check_table};

// The work area that five stations ask for.
const AREA: usize = 40;

// The data pairs.
const PAIRS: [(u8, u8); 6] = [(0, 0), (1, 0), (1, 1), (0, 2), (2, 1), (2, 2)];

// A block of its own for each number below 251. The trials of the stores have it too, and say why.
fn sample(k: usize) -> Block {
    let byte = |i: usize| (k.wrapping_mul(37).wrapping_add(i.wrapping_mul(11)) % 251) as u8;
    Block::from(array::from_fn(byte))
}

// Some data pair takes a new block.
fn write(turns: &mut Vec<Turn<Block>>) -> Result<(), AllocError> {
    let k = turns.len();
    let (a, b) = PAIRS[k % 6];
    let block = sample(k);
    let area = AREA;
    turns.push(Turn::from(Call::Write { a, b, block, area }))?;
    Ok(())
}

// Every data pair is read, its stations the other way round.
fn read_all(turns: &mut Vec<Turn<Block>>) -> Result<(), AllocError> {
    for (b, a) in PAIRS {
        turns.push(Turn::from(Call::Read { a, b, area: AREA }))?;
    }
    Ok(())
}

// So many steps of a filling, with a write after each.
fn fill(turns: &mut Vec<Turn<Block>>, station: u8, steps: u8) -> Result<(), AllocError> {
    let area = AREA;
    for _ in 0..steps {
        turns.push(Turn::from(Call::Fill { station, area }))?;
        write(turns)?;
    }
    Ok(())
}

// A station that is out is fitted, filled and finished.
fn swap(turns: &mut Vec<Turn<Block>>, station: u8) -> Result<(), AllocError> {
    turns.push(Turn::from(Call::Fit { station }))?;
    fill(turns, station, 5)?;
    turns.push(Turn::from(Call::Finish { station }))?;
    read_all(turns)
}

// Station s is lost and swapped; t is lost while s is filled, and u when s is filled up. Then t and u are swapped.
fn swap_three(turns: &mut Vec<Turn<Block>>, s: u8, t: u8, u: u8) -> Result<(), AllocError> {
    turns.push(Turn::from(Call::Lose { station: s }))?;
    write(turns)?;
    read_all(turns)?;
    turns.push(Turn::from(Call::Fit { station: s }))?;
    fill(turns, s, 2)?;
    turns.push(Turn::from(Call::Lose { station: t }))?;
    write(turns)?;
    read_all(turns)?;
    fill(turns, s, 3)?;
    turns.push(Turn::from(Call::Lose { station: u }))?;
    turns.push(Turn::from(Call::Finish { station: s }))?;
    read_all(turns)?;
    swap(turns, t)?;
    swap(turns, u)
}

// Every three stations, in every order.
fn all_swaps(rt: &(impl Abort + AllocGlobal)) -> Result<Vec<Turn<Block>>, Fail> {
    let mut turns = Vec::new(rt.alloc());
    for s in 0..5 {
        for t in 0..5 {
            for u in 0..5 {
                if s != t && t != u && u != s {
                    swap_three(&mut turns, s, t, u)?;
                }
            }
        }
    }
    assert_eq!(rt; turns.len(), 4260);
    Ok(turns)
}

// What an accepted call wrote at a pair.
fn written(turn: &Turn<Block>, a: u8, b: u8) -> Option<Block> {
    match (turn.call, turn.answer) {
        (
            Call::Write {
                a: c,
                b: d,
                block,
                ..
            },
            Answer::Accepted,
        ) => {
            let same_pair = (a, b) == (c, d) || (a, b) == (d, c);
            same_pair.then_some(block)
        }
        _ => None,
    }
}

// The last accepted write of a pair, zero if there is none.
fn last_write(turns: &[Turn<Block>], a: u8, b: u8) -> Block {
    let last = turns.iter().rev().find_map(|turn| written(turn, a, b));
    last.unwrap_or(Block::zero())
}

// What a call must be answered after these turns: a read gives the last write, and every other call is accepted.
fn right_answer(before: &[Turn<Block>], call: Call<Block>) -> Answer<Block> {
    match call {
        Call::Read { a, b, .. } => Answer::Given(last_write(before, a, b)),
        _ => Answer::Accepted,
    }
}

// Serves the list, and audits the book.
fn run<S: WriteStore<Block = Block> + Drop>(
    heap: Global,
    store: S,
    turns: &mut [Turn<Block>],
) -> Result<Verdict, Fault> {
    let mut book = Book::make(store);
    let mut rack = Rack::new(heap);
    let served = serve(&mut book, turns, &mut [Block::zero(); AREA], &mut rack);
    retire(&mut book, rack);
    served?;
    book.audit()
}

// Every call of the list is answered right over a store, which is sound in the end.
fn swaps_over<S: WriteStore<Block = Block> + Drop>(
    rt: &(impl Abort + AllocGlobal),
    store: S,
) -> Result<(), Fail> {
    let mut turns = all_swaps(rt)?;
    let verdict = run(rt.alloc(), store, turns.as_mut_slice());
    assert_eq!(rt; verdict, Ok(Verdict::Sound));
    let turns = turns.as_slice();
    for (i, turn) in turns.iter().enumerate() {
        assert_eq!(rt; turn.answer, right_answer(&turns[..i], turn.call), "{}", i);
    }
    Ok(())
}

#[test]
fn swaps_over_a_table(rt: HostRuntime) -> Result<(), Fail> {
    let mut row = [sample(7); 15];
    check_table(5, &row)?;
    swaps_over(&rt, Table::make(5, &mut row))
}

#[test]
fn swaps_over_an_image(rt: HostRuntime) -> Result<(), Fail> {
    let mut bytes = [0; 970];
    bytes[..10].copy_from_slice(&[1, 0, 0, 3, 0xC5, 5, 0, 0, 0, 0]);
    check_image(&bytes)?;
    swaps_over(&rt, Image::make(&mut bytes))
}
