// Pseudo-random numbers: a shift register of 64 bits, the same at every run.
use kinds::Block;
use std::array;

#[derive(Drop)]
pub struct Random {
    state: u64,
}

impl Random {
    pub fn new(start: u64) -> Self {
        // Never zero, which would give zeros for ever.
        let state = (start ^ 0x9E37_79B9_7F4A_7C15).max(1);
        Random { state }
    }

    pub fn draw(&mut self) -> u64 {
        let mut x = self.state;
        x ^= x << 13;
        x ^= x >> 7;
        x ^= x << 17;
        self.state = x;
        x.wrapping_mul(0x2545_F491_4F6C_DD1D) >> 24
    }

    // A number below a bound, or 0 where there is none.
    pub fn below(&mut self, bound: usize) -> usize {
        let number = self.draw() as usize;
        if bound == 0 { 0 } else { number % bound }
    }

    // True once in so many times.
    pub fn once_in(&mut self, times: usize) -> bool {
        self.below(times) == 0
    }

    pub fn byte(&mut self) -> u8 {
        (self.draw() & 0xFF) as u8
    }

    pub fn block(&mut self) -> Block {
        Block::from(array::from_fn(|_| self.byte()))
    }
}
