// Serves two lists of calls on books over tables of seven stations, and prints each call with its answer.
#![tactic(auto)]

mod calls;
mod texts;

use anyhow::anyhow;
use audit::Verdict;
use book::Book;
use calls::{begin, end, first_loss, second_loss, swap, third_loss, too_many};
use faults::Fault;
use kinds::{Block, BlockKind};
use serve::{Call, Rack, Turn, retire, serve};
use std::alloc::{AllocError, Global};
use store::{ReadStore, Table, WriteStore, check_table};
use texts::{in_text, turn};

// A list of calls with their answers, and the row of blocks that a table of seven stations lies in.
#[derive(Drop)]
struct Part {
    turns: Vec<Turn<Block>>,
    row: Vec<Block>,
}

impl Part {
    fn new(heap: Global) -> Result<Self, AllocError> {
        Ok(Part {
            turns: Vec::new(heap),
            row: vec![in heap; Block::zero(); 28]?,
        })
    }

    // Adds calls with no answer yet.
    fn add(&mut self, calls: &[Call<&'static str>]) -> Result<(), AllocError> {
        for call in calls {
            self.turns.push(turn(*call))?;
        }
        Ok(())
    }
}

// Opens the book, makes the calls, and audits it at the end.
fn run_calls<S: WriteStore>(
    book: &mut Book<S>,
    turns: &mut [Turn<S::Block>],
    work: &mut [S::Block],
    rack: &mut Rack,
) -> Result<Verdict, Fault> {
    serve(book, turns, work, rack)?;
    book.audit()
}

// What the audits of the two books answer in the end.
#[derive(Clone, Copy)]
struct Audits {
    first: Result<Verdict, Fault>,
    second: Result<Verdict, Fault>,
}

// Makes each list of calls on a book of its own. A ticket of the first stays in the rack, and the second refuses it.
fn run_both<S: WriteStore + Drop>(
    heap: Global,
    one: S,
    other: S,
    lost: &mut [Turn<S::Block>],
    kept: &mut [Turn<S::Block>],
    work: &mut [S::Block],
) -> Audits {
    let mut one_book = Book::make(one);
    let mut other_book = Book::make(other);
    let mut rack = Rack::new(heap);
    let first = run_calls(&mut one_book, lost, work, &mut rack);
    let second = run_calls(&mut other_book, kept, work, &mut rack);
    retire(&mut other_book, rack);
    Audits { first, second }
}

// The same over the rows of two parts, as tables of seven stations. In one function the two do not prove: the check does not
// follow a book over a table of blocks, but one over any store.
fn run_parts(
    lost: &mut Part,
    kept: &mut Part,
    heap: Global,
    work: &mut [Block],
) -> Result<Audits, Fault> {
    let one = lost.row.as_mut_slice();
    let other = kept.row.as_mut_slice();
    check_table(7, one)?;
    check_table(7, other)?;
    Ok(run_both(
        heap,
        Table::make(7, one),
        Table::make(7, other),
        lost.turns.as_mut_slice(),
        kept.turns.as_mut_slice(),
        work,
    ))
}

// Prints a line for each call, and one for the audit.
fn tell(
    rt: &HostRuntime,
    turns: &[Turn<Block>],
    audit: Result<Verdict, Fault>,
) -> anyhow::Result<()> {
    for made in turns {
        let line = in_text(*made);
        println!(rt; "{line}")?;
    }
    match audit {
        Ok(verdict) => println!(rt; "audit: {verdict}")?,
        Err(fault) => println!(rt; "audit: no {fault}")?,
    }
    Ok(())
}

fn run(rt: &HostRuntime) -> anyhow::Result<()> {
    let heap = rt.alloc();
    let mut lost = Part::new(heap)?;
    lost.add(&too_many())?;
    let mut kept = Part::new(heap)?;
    kept.add(&begin())?;
    kept.add(&first_loss())?;
    kept.add(&second_loss())?;
    kept.add(&third_loss())?;
    kept.add(&swap(0))?;
    kept.add(&swap(4))?;
    kept.add(&end())?;
    let audited = run_parts(&mut lost, &mut kept, heap, &mut [Block::zero(); 56]);
    let audits = audited.map_err(|_| anyhow!("no table"))?;
    println!(rt; "the first book")?;
    tell(rt, lost.turns.as_slice(), audits.first)?;
    println!(rt; "the second book")?;
    tell(rt, kept.turns.as_slice(), audits.second)
}

fn main(rt: HostRuntime) -> anyhow::Result<()> {
    run(&rt)
}
