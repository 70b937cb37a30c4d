// Whole sessions on damaged and on random inputs: the lines of the model against those of the library.
use crate::random::Random;
use crate::sessions::model_lines;
use crate::stops::{Stop, differs};
use std::alloc::{AllocError, Global};
use transcript::transcribe;

// An order, by its stations. The 64 bytes of a write are all the same.
#[derive(Clone, Copy)]
enum Order {
    Read(u8, u8),
    Write(u8, u8),
    Lose(u8),
    Replace(u8),
    Audit,
    // by a letter that is none
    Unknown(u8),
}

impl Order {
    // A random one of n stations, with a station that is not there now and then.
    fn random(n: u8, random: &mut Random) -> Self {
        let choice = random.below(14);
        let a = random.byte() % n.saturating_add(1).max(1);
        let b = random.byte() % n.max(1);
        match choice {
            0..=3 => Order::Read(a, b),
            4..=8 => Order::Write(a, b),
            9 => Order::Lose(a),
            10 | 11 => Order::Replace(a),
            12 => Order::Audit,
            _ => Order::Unknown(a),
        }
    }

    // Adds its record.
    fn push(self, input: &mut Vec<u8>) -> Result<(), AllocError> {
        match self {
            Order::Read(a, b) => input.extend_from_slice(&[1, 0, 3, b'R', a, b]),
            Order::Write(a, b) => {
                input.extend_from_slice(&[1, 0, 67, b'W', a, b])?;
                input.extend_from_slice(&[a.wrapping_mul(16) ^ b ^ 0x2A; 64])
            }
            Order::Lose(a) => input.extend_from_slice(&[1, 0, 2, b'L', a]),
            Order::Replace(a) => input.extend_from_slice(&[1, 0, 2, b'P', a]),
            Order::Audit => input.extend_from_slice(&[1, 0, 1, b'C']),
            Order::Unknown(a) => input.extend_from_slice(&[1, 0, 2, b'X', a]),
        }
    }
}

// Orders of five stations.
const ORDERS: [Order; 24] = [
    Order::Audit,
    Order::Write(0, 0),
    Order::Write(2, 1),
    Order::Lose(0),
    Order::Read(0, 0),
    Order::Read(7, 0),
    Order::Lose(0),
    Order::Write(0, 1),
    Order::Replace(0),
    Order::Audit,
    Order::Unknown(1),
    Order::Write(3, 0),
    Order::Lose(4),
    Order::Lose(1),
    Order::Read(1, 2),
    Order::Audit,
    Order::Lose(2),
    Order::Read(0, 0),
    Order::Read(1, 0),
    Order::Replace(1),
    Order::Write(0, 0),
    Order::Replace(3),
    Order::Read(4, 4),
    Order::Replace(9),
];

fn sample(heap: Global) -> Result<Vec<u8>, AllocError> {
    let mut input = Vec::from_slice(heap, &[5])?;
    for order in ORDERS {
        order.push(&mut input)?;
    }
    Ok(input)
}

fn random_input(heap: Global, n: u8, random: &mut Random) -> Result<Vec<u8>, AllocError> {
    let mut input = Vec::from_slice(heap, &[n])?;
    for _ in 0..200 {
        Order::random(n, random).push(&mut input)?;
    }
    Ok(input)
}

// The library's lines to an input are the model's.
fn compare_input(heap: Global, input: &[u8], what: &'static str, at: usize) -> Result<(), Stop> {
    let wanted = model_lines(heap, input)?;
    let lines = transcribe(heap, input)?;
    if wanted.as_str().as_bytes() == lines.as_slice() {
        Ok(())
    } else {
        let n = input.first().copied().unwrap_or(0);
        Err(differs(what, n, input.len(), at))
    }
}

// Every input that a sample begins with, itself included. Answers how many.
fn compare_cut(heap: Global, input: &[u8]) -> Result<usize, Stop> {
    for end in 0..input.len() {
        compare_input(heap, &input[0..end], "cut session", end)?;
    }
    compare_input(heap, input, "session", 0)?;
    Ok(input.len().saturating_add(1))
}

// Every input that differs from a sample in one bit. Answers how many.
fn compare_flipped(heap: Global, input: &mut [u8]) -> Result<usize, Stop> {
    // An index, since the whole input is read while a byte of it is changed.
    for k in 0..input.len() {
        for bit in 0..8u8 {
            input[k] ^= 1 << bit;
            compare_input(heap, input, "flipped session", k)?;
            input[k] ^= 1 << bit;
        }
    }
    Ok(input.len().saturating_mul(8))
}

// The longest input that is answered, and one byte more.
fn compare_long(heap: Global) -> Result<(), Stop> {
    let mut input = Vec::from_slice(heap, &[7])?;
    for _ in 0..4096 {
        Order::Audit.push(&mut input)?;
    }
    compare_input(heap, input.as_slice(), "long session", 0)?;
    input.truncate(16_384);
    compare_input(heap, input.as_slice(), "long session", 1)
}

// How many inputs were compared.
#[derive(Clone, Copy)]
pub struct Compared {
    pub cut: usize,
    pub flipped: usize,
    pub random: usize,
}

pub fn compare_sessions(heap: Global, sizes: &[u8]) -> Result<Compared, Stop> {
    let mut input = sample(heap)?;
    let cut = compare_cut(heap, input.as_slice())?;
    let flipped = compare_flipped(heap, input.as_mut_slice())?;
    compare_long(heap)?;
    let random = compare_random(heap, sizes)?;
    Ok(Compared {
        cut,
        flipped,
        random,
    })
}

// Random inputs of each size. Answers how many.
fn compare_random(heap: Global, sizes: &[u8]) -> Result<usize, Stop> {
    let mut random = Random::new(4);
    let mut rounds = (0..20).flat_map(|_| sizes.iter());
    // The count so far tells an input apart.
    rounds.try_fold(0, |inputs: usize, n| {
        let input = random_input(heap, *n, &mut random)?;
        compare_input(heap, input.as_slice(), "random session", inputs)?;
        Ok(inputs.saturating_add(1))
    })
}
