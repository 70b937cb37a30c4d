// Lawful rows of blocks of five and seven stations.
use kinds::{Block, BlockKind};
use std::array;

// For each data pair in place order, the places of the check pairs that are 1 where it alone of the data pairs is 1: a
// check pair at place q is one of them where the bit of weight 2^q is set.
pub const FIVE: [u32; 6] = [0x4cc0, 0x5940, 0x7fc0, 0x7240, 0x16c0, 0x1b80];

pub const SEVEN: [u32; 15] = [
    0x861_8000, 0x8c2_8000, 0x9e7_8000, 0x984_8000, 0xbad_8000, 0xfff_8000, 0xb08_8000, 0xf39_8000,
    0x37b_8000, 0x3df_0000, 0xe10_8000, 0x231_8000, 0x253_0000, 0x296_0000, 0x31c_0000,
];

// A block of its own for each place. The trials of the stores have it too, and say why.
pub fn sample(p: usize) -> Block {
    let byte = |i: usize| (p.wrapping_mul(37).wrapping_add(i.wrapping_mul(11)) % 251) as u8;
    Block::from(array::from_fn(byte))
}

// Adds a sample to its own place and to each place of its pattern.
fn add_sample(row: &mut [Block], p: usize, pattern: u32) {
    for (q, slot) in row.iter_mut().enumerate() {
        if p == q || (q < 32 && (pattern >> q) & 1 == 1) {
            *slot = slot.add(sample(p));
        }
    }
}

// The blocks of all pairs: samples at the data pairs, and at each check pair the sum of those whose pattern has it.
pub fn lawful_row(patterns: &[u32]) -> [Block; 28] {
    let mut row = [Block::zero(); 28];
    for (p, pattern) in patterns.iter().enumerate() {
        add_sample(&mut row, p, *pattern);
    }
    row
}
