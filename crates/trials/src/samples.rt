// Images made by hand, with the check pairs of three and of five stations written out as tables.
// The trials of the stores list the pairs of five stations too: each crate of trials stands by itself.
use faults::Fault;
use image::{ReadImage, check_image};
use std::alloc::{AllocError, Global};
use std::array;
use std::test::Fail;

// The sizes, each with how many pairs it has.
pub const SIZES: [(u8, usize); 10] = [
    (3, 6),
    (5, 15),
    (7, 28),
    (11, 66),
    (13, 91),
    (17, 153),
    (19, 190),
    (23, 276),
    (29, 435),
    (31, 496),
];

// The pairs of five stations in place order, the larger station first: written out, and not the library's own.
pub const PAIRS: [(u8, u8); 15] = [
    (0, 0),
    (1, 0),
    (1, 1),
    (2, 0),
    (2, 1),
    (2, 2),
    (3, 0),
    (3, 1),
    (3, 2),
    (3, 3),
    (4, 0),
    (4, 1),
    (4, 2),
    (4, 3),
    (4, 4),
];

// For each place, which data pairs add up to its block: the bit of weight 2^d stands for the data pair at place d.
pub const FIVE: [u8; 15] = [
    0b000001, 0b000010, 0b000100, 0b001000, 0b010000, 0b100000, 0b011111, 0b110101, 0b100110,
    0b111100, 0b010101, 0b100111, 0b111110, 0b001100, 0b001111,
];

// Three stations have one data pair, and every pair holds its block.
pub const THREE: [u8; 6] = [1; 6];

// Byte j of the data pair at place d.
fn data_byte(d: u8, j: u8) -> u8 {
    d.wrapping_mul(59)
        .wrapping_add(j)
        .wrapping_mul(37)
        .wrapping_add(11)
}

// Byte j of the sum of some data pairs.
fn summed_byte(summands: u8, j: u8) -> u8 {
    (0..6)
        .filter(|d| (summands >> *d) & 1 == 1)
        .fold(0, |sum, d| sum ^ data_byte(d, j))
}

// The sum of some data pairs.
pub fn summed(summands: u8) -> [u8; 64] {
    array::from_fn(|j| summed_byte(summands, (j & 0xff) as u8))
}

// An image of n stations whose blocks are the sums of a table.
fn image(heap: Global, n: u8, marks: u32, table: &[u8]) -> Result<Vec<u8>, AllocError> {
    let pairs = (table.len() & 0xffff) as u32;
    let length = pairs.wrapping_mul(64).wrapping_add(5);
    let mut bytes = vec![in heap; 1]?;
    bytes.extend_from_slice(&length.to_be_bytes())?;
    bytes.push(n)?;
    bytes.extend_from_slice(&marks.to_be_bytes())?;
    for summands in table {
        bytes.extend_from_slice(&summed(*summands))?;
    }
    Ok(bytes)
}

// A lawful image of five stations, 970 bytes.
pub fn five(heap: Global, marks: u32) -> Result<Vec<u8>, AllocError> {
    image(heap, 5, marks, &FIVE)
}

// A lawful image of three stations, 394 bytes.
pub fn three(heap: Global, marks: u32) -> Result<Vec<u8>, AllocError> {
    image(heap, 3, marks, &THREE)
}

// An image whose blocks are all zero.
pub fn zeros(heap: Global, n: u8, pairs: usize, marks: u32) -> Result<Vec<u8>, AllocError> {
    image(heap, n, marks, vec![in heap; 0; pairs]?.as_slice())
}

// The image that bytes are.
pub fn read_image(bytes: &[u8]) -> Result<ReadImage<'_>, Fault> {
    check_image(bytes)?;
    Ok(ReadImage::make(bytes))
}

pub fn set(bytes: &mut [u8], at: usize, value: u8) -> Result<(), Fail> {
    *bytes.get_mut(at).ok_or("no such byte")? = value;
    Ok(())
}

// Flips a bit of the block at a place.
pub fn flip(bytes: &mut [u8], place: usize) -> Result<(), Fail> {
    let at = place.wrapping_mul(65).wrapping_add(10);
    *bytes.get_mut(at).ok_or("no such byte")? ^= 64;
    Ok(())
}
