// Compares a plain model of the pair book with the library, and prints how much was compared.
#![tactic(auto)]

mod areas;
mod calls;
mod choices;
mod counts;
mod damages;
mod elimination;
mod model;
mod random;
mod recoveries;
mod scripts;
mod sessions;
mod stops;
mod tickets;

use anyhow::anyhow;
use areas::Area;
use book::Book;
use calls::compare_list;
use counts::Counts;
use damages::{Compared, compare_sessions};
use elimination::{Solution, count_pairs};
use kinds::Block;
use random::Random;
use recoveries::{compare_patterns, compare_recoveries};
use scripts::Bench;
use serve::{Rack, retire};
use std::alloc::Global;
use stops::{Stop, differs};
use store::{ReadStore, Table, WriteStore, check_table};

const SIZES: [u8; 10] = [3, 5, 7, 11, 13, 17, 19, 23, 29, 31];

// How many lists of calls there are for each size and store.
const LISTS: usize = 60;

fn compare_size(rt: &HostRuntime, n: u8, random: &mut Random) -> Result<(), Stop> {
    let heap = rt.alloc();
    let solution = Solution::of(heap, n)?;
    let recoveries = compare_recoveries(heap, &solution, random)?;
    let patterns = compare_patterns(heap, &solution)?;
    let losses = count_pairs(n);
    println!(rt; "size {n}: {losses} losses, {recoveries} recoveries, {patterns} patterns")?;
    Ok(())
}

fn compare_lists<A: Area + Drop>(
    heap: Global,
    start: u64,
    rack: &mut Rack,
) -> Result<Counts, Stop> {
    let mut bench = Bench::new(heap, start);
    let mut counts = Counts::default();
    for _ in 0..LISTS {
        for n in SIZES {
            compare_list::<A>(&mut bench, n, rack, &mut counts)?;
        }
    }
    Ok(counts)
}

// The same with a rack of its own, whose tickets are abandoned on a book over a spare store. The store is any: the check does
// not follow a book over a table of blocks.
fn compare_calls<A: Area + Drop, S: WriteStore + Drop>(
    heap: Global,
    start: u64,
    spare: S,
) -> Result<Counts, Stop> {
    let mut book = Book::make(spare);
    let mut rack = Rack::new(heap);
    let counts = compare_lists::<A>(heap, start, &mut rack);
    retire(&mut book, rack);
    counts
}

// The same, with a table of three stations as the spare store.
fn compare_over<A: Area + Drop>(heap: Global, start: u64) -> Result<Counts, Stop> {
    let mut row = [Block::from([0; 64]); 6];
    check_table(3, &row).map_err(|_| differs("table", 3, 0, 0))?;
    compare_calls::<A, _>(heap, start, Table::make(3, &mut row))
}

// How many calls there were, how they were answered, and how many were refused by each fault's number.
fn tell_counts(rt: &HostRuntime, name: &str, counts: &Counts) -> Result<(), Stop> {
    let Counts {
        lists,
        calls,
        stored,
        audits,
        given,
        accepted,
        untouched,
        not_made,
        refused,
    } = counts;
    println!(rt;
        "{name}: {lists} lists, {calls} calls, {stored} stored blocks, {audits} sound audits"
    )?;
    println!(rt;
        "{name}: {given} read, {accepted} accepted, {untouched} untouched, {not_made} not made"
    )?;
    print!(rt; "{name}: refused")?;
    for (number, count) in refused.iter().enumerate() {
        if *count > 0 {
            print!(rt; " {number}:{count}")?;
        }
    }
    println!(rt)?;
    Ok(())
}

fn compare_all(rt: &HostRuntime) -> Result<(), Stop> {
    let mut random = Random::new(1);
    for n in SIZES {
        compare_size(rt, n, &mut random)?;
    }
    let tables = compare_over::<Vec<Block>>(rt.alloc(), 2)?;
    tell_counts(rt, "tables", &tables)?;
    let images = compare_over::<Vec<u8>>(rt.alloc(), 3)?;
    tell_counts(rt, "images", &images)?;
    let Compared {
        cut,
        flipped,
        random,
    } = compare_sessions(rt.alloc(), &SIZES)?;
    println!(rt; "sessions: {cut} cut, {flipped} with a flipped bit, {random} random, 2 long")?;
    Ok(())
}

// A difference stands in the output, as what was compared does.
fn main(rt: HostRuntime) -> anyhow::Result<()> {
    let Err(stop) = compare_all(&rt) else {
        return Ok(());
    };
    match stop {
        Stop::Differs { .. } => {
            println!(rt; "{stop}")?;
            Err(anyhow!("the library differs from the model"))
        }
        Stop::NoMemory(_) | Stop::NoOutput(_) => Err(anyhow!("no memory, or no output")),
    }
}
