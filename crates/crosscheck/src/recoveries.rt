// Lost blocks and patterns of a size: what the library recovers, against the solved sum rules.
use crate::elimination::{Solution, count_pairs, place_of};
use crate::random::Random;
use crate::stops::{Stop, differs};
use code::Size;
use kinds::Block;
use recovery::{pattern, recover};
use std::alloc::{AllocError, Global};
use store::{ReadStore, Table, WriteStore, check_table};

// The blocks of all pairs of n stations, which keep every rule, and a work area.
#[derive(Drop)]
struct Codeword {
    heap: Global,
    n: u8,
    row: Vec<Block>,
    work: Vec<Block>,
}

impl Codeword {
    // Random blocks at the data pairs.
    fn random(heap: Global, solution: &Solution, random: &mut Random) -> Result<Self, AllocError> {
        let n = solution.n();
        let data = 0..solution.data_pairs();
        let blocks: Vec<Block> = data.map(|_| random.block()).collect(heap)?;
        Ok(Codeword {
            heap,
            n,
            row: solution.encode(heap, blocks.as_slice())?,
            work: vec![in heap; random.block(); 8 * usize::from(n)]?,
        })
    }

    // The row, with random blocks at the pairs of some stations.
    fn spoilt(&self, lost: [u8; 2], random: &mut Random) -> Result<Vec<Block>, AllocError> {
        let mut held = Vec::from_slice(self.heap, self.row.as_slice())?;
        for s in lost {
            for k in 0..self.n {
                if let Some(block) = held.get_mut(place_of(s, k)) {
                    *block = random.block();
                }
            }
        }
        Ok(held)
    }

    // Whether the pair of a and b is recovered as in the row.
    fn recovers<S: ReadStore<Block = Block>>(&mut self, store: &S, a: u8, b: u8) -> bool {
        let mut block = Block::from([0x5A; 64]);
        let answer = recover(store, a, b, self.work.as_mut_slice(), &mut block);
        answer.is_ok() && self.row.get(place_of(a, b)) == Some(&block)
    }

    // The first partner of s at which the recovered block is not the one of the row.
    fn first_wrong<S: ReadStore<Block = Block>>(&mut self, store: &S, s: u8) -> Option<u8> {
        (0..self.n).find(|k| {
            let (a, b) = if *k % 2 == 0 { (s, *k) } else { (*k, s) };
            !self.recovers(store, a, b)
        })
    }

    // Recovers every pair of two stations, which may be one, from a table with both out. Answers how many recoveries there
    // were.
    fn compare_lost(&mut self, lost: [u8; 2], random: &mut Random) -> Result<usize, Stop> {
        let [i, j] = lost;
        let mut held = self.spoilt(lost, random)?;
        let row = held.as_mut_slice();
        let n = self.n;
        check_table(n, row).map_err(|_| differs("table", n, place_of(i, j), 0))?;
        let mut table = Table::make(n, row);
        let _ = table.take_out(i);
        let _ = table.take_out(j);
        for s in lost {
            if let Some(k) = self.first_wrong(&table, s) {
                let at = place_of(s, k);
                return Err(differs("recovered block", n, place_of(i, j), at));
            }
        }
        Ok(2 * usize::from(n))
    }
}

// Every pair of every two stations, with both out, and of every one alone. Answers how many recoveries there were.
pub fn compare_recoveries(
    heap: Global,
    solution: &Solution,
    random: &mut Random,
) -> Result<usize, Stop> {
    let n = solution.n();
    let mut codeword = Codeword::random(heap, solution, random)?;
    let mut losses = (0..n).flat_map(|i| (0..=i).map(move |j| [i, j]));
    losses.try_fold(0, |recovered: usize, lost| {
        let more = codeword.compare_lost(lost, random)?;
        Ok(recovered.saturating_add(more))
    })
}

// Whether bits are the pattern of the data pair at a place, and true past the pairs.
fn is_pattern(solution: &Solution, p: usize, bits: &[bool]) -> bool {
    let pairs = count_pairs(solution.n());
    bits.iter().enumerate().all(|(q, bit)| *bit == (q >= pairs || solution.in_pattern(p, q)))
}

// The pattern of every data pair. Answers how many there were.
pub fn compare_patterns(heap: Global, solution: &Solution) -> Result<usize, Stop> {
    let n = solution.n();
    let size = Size::try_from(n).map_err(|_| differs("size", n, 0, 0))?;
    let mut work = vec![in heap; true; 8 * usize::from(n)]?;
    let mut bits = vec![in heap; true; count_pairs(n).saturating_add(3)]?;
    for a in 0..n.saturating_sub(2) {
        for b in 0..=a {
            let laid = pattern(size, b, a, work.as_mut_slice(), bits.as_mut_slice());
            let p = place_of(a, b);
            if laid.is_err() || !is_pattern(solution, p, bits.as_slice()) {
                return Err(differs("pattern", n, 0, p));
            }
        }
    }
    Ok(solution.data_pairs())
}
