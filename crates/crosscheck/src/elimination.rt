// The sum rules of a size, solved for the check pairs by plain elimination over bits.
ghost use Rattle.std.specs.Prelude.{◌≤◌};

use kinds::Block;
use std::alloc::{AllocError, Global};
use std::ops::Range;

// A sum of pairs: for each place, whether its pair is a part of it.
#[derive(Clone, Copy, Default)]
pub struct Sum {
    words: [u64; 8],
}

impl Sum {
    pub fn has(&self, p: usize) -> bool {
        self.words
            .get(p / 64)
            .is_some_and(|word| (*word >> (p % 64)) & 1 == 1)
    }

    fn flip(&mut self, p: usize) {
        if let Some(word) = self.words.get_mut(p / 64) {
            *word ^= 1 << (p % 64);
        }
    }

    fn add(&mut self, other: &Sum) {
        for (word, more) in self.words.iter_mut().zip(other.words) {
            *word ^= more;
        }
    }
}

// How many pairs so many stations have.
pub fn count_pairs(stations: u8) -> usize
    ensures { result ≤ 32_640 }
{
    let n = usize::from(stations);
    n * (n + 1) / 2
}

// Where a pair stands: after all pairs of smaller stations than its larger one.
pub fn place_of(a: u8, b: u8) -> usize {
    count_pairs(a.max(b)) + usize::from(a.min(b))
}

// The pairs of station h with each other one.
fn neighbourhood(n: u8, h: u8) -> Sum {
    let mut sum = Sum::default();
    for k in 0..n {
        if k != h {
            sum.flip(place_of(h, k));
        }
    }
    sum
}

// The pairs whose stations add up to m, or to n more.
fn diagonal(n: u8, m: u8) -> Sum {
    let mut sum = Sum::default();
    for a in 0..n {
        for b in 0..=a {
            if (u16::from(a) + u16::from(b)) % u16::from(n) == u16::from(m) {
                sum.flip(place_of(a, b));
            }
        }
    }
    sum
}

fn sum_rules(heap: Global, n: u8) -> Result<Vec<Sum>, AllocError> {
    let neighbourhoods = (0..n).map(|h| neighbourhood(n, h));
    let diagonals = (0..n).map(|m| diagonal(n, m));
    neighbourhoods.chain(diagonals).collect(heap)
}

// Makes a rule with a pair the first of those that are left, and takes the pair out of every other rule, by adding that one
// to each that has it.
fn clear_pair(done: &mut [Sum], left: &mut [Sum], p: usize) {
    if let Some(i) = left.iter().position(|rule| rule.has(p)) {
        left.swap(0, i);
        if let [kept, rest @ ..] = left {
            for rule in done.iter_mut().chain(rest) {
                if rule.has(p) {
                    rule.add(kept);
                }
            }
        }
    }
}

// Makes the k-th rule the only one with the k-th of these places.
fn eliminate(rules: &mut [Sum], places: Range<usize>) {
    for (k, p) in places.enumerate() {
        if let Some((done, left)) = rules.split_at_mut_checked(k) {
            clear_pair(done, left, p);
        }
    }
}

// The check pairs of a size, each with the data pairs that it sums.
#[derive(Drop)]
pub struct Solution {
    n: u8,
    sums: Vec<Sum>,
}

impl Solution {
    pub fn of(heap: Global, n: u8) -> Result<Self, AllocError> {
        let places = count_pairs(n.saturating_sub(2))..count_pairs(n);
        let count = places.len();
        let mut sums = sum_rules(heap, n)?;
        eliminate(sums.as_mut_slice(), places);
        sums.truncate(count);
        Ok(Solution { n, sums })
    }

    pub fn n(&self) -> u8 {
        self.n
    }

    // How many data pairs there are.
    pub fn data_pairs(&self) -> usize {
        count_pairs(self.n.saturating_sub(2))
    }

    // Whether the pattern of the data pair at one place has the pair at another.
    pub fn in_pattern(&self, data: usize, place: usize) -> bool {
        let check = place.checked_sub(self.data_pairs());
        let sum = check.and_then(|k| self.sums.get(k));
        sum.is_some_and(|sum| sum.has(data))
    }

    // The blocks of all pairs, in place order, with these at the data pairs.
    pub fn encode(&self, heap: Global, blocks: &[Block]) -> Result<Vec<Block>, AllocError> {
        let mut row = Vec::from_slice(heap, blocks)?;
        row.extend(self.sums.iter().map(|sum| sum_blocks(sum, blocks)))?;
        Ok(row)
    }
}

// The sum of the blocks whose places are in a sum.
fn sum_blocks(sum: &Sum, blocks: &[Block]) -> Block {
    let mut bytes = [0; 64];
    for (p, block) in blocks.iter().enumerate() {
        if sum.has(p) {
            for (sum, byte) in bytes.iter_mut().zip(block.as_bytes()) {
                *sum ^= *byte;
            }
        }
    }
    Block::from(bytes)
}
