// Blocks of their own, and images of rows of them.
// The trials of recovery and of the book have such blocks too; a crate of samples for all would be no plainer, since a function
// that a crate offers wants a contract.
use kinds::Block;
use std::array;

// The pairs of five stations in place order, the larger station first: written out, and not the library's own.
pub const PAIRS: [(u8, u8); 15] = [
    (0, 0),
    (1, 0),
    (1, 1),
    (2, 0),
    (2, 1),
    (2, 2),
    (3, 0),
    (3, 1),
    (3, 2),
    (3, 3),
    (4, 0),
    (4, 1),
    (4, 2),
    (4, 3),
    (4, 4),
];

// A block of its own for each number below 251.
pub fn sample(p: usize) -> Block {
    let byte = |i: usize| (p.wrapping_mul(37).wrapping_add(i.wrapping_mul(11)) % 251) as u8;
    Block::from(array::from_fn(byte))
}

// A row longer than five stations need.
pub fn sample_row() -> [Block; 20] {
    array::from_fn(sample)
}

// The blocks of an image of five stations, after its ten bytes of header.
pub fn blocks_of(bytes: &mut [u8; 970]) -> &mut [[u8; 64]] {
    bytes[10..].as_chunks_mut().0
}

// The image of five stations with these marks and the first 15 blocks of a row.
pub fn image_of(row: &[Block], marks: u8) -> [u8; 970] {
    let mut bytes = [0; 970];
    bytes[..10].copy_from_slice(&[1, 0, 0, 3, 0xC5, 5, 0, 0, 0, marks]);
    for (slot, x) in blocks_of(&mut bytes).iter_mut().zip(row) {
        *slot = *x.as_bytes();
    }
    bytes
}
