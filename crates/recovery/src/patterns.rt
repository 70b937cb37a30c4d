// Patterns: the check pairs that are 1 in the codeword of bits with 1 at one data pair and 0 at every other.
ghost use Rattle.std.specs.Prelude.{◌≡◌, ℕ, ◌+◌, ◌*◌, ◌<◌, ◌≤◌, max, true, false, length, is_ok, slice_index_or};
ghost use Rattle.code.specs.Places.{pair_place};
ghost use Rattle.code.specs.Sizes.{pairs as pair_count};
ghost use Rattle.recovery.specs.Patterns.{impulse, pattern_answer, Pattern};
ghost use Rattle.recovery.specs.Recovery.{row_bit};

use crate::admits::admit_data;
use crate::areas::admit_area;
use crate::rebuilds::rebuild;
use crate::rows::RowPair;
use code::{Pair, Size, pair_at};
use faults::Fault;
use kinds::BlockKind;
use store::ReadStore;

// A store with one block, at the pair of two stations, in the caller's order. Every other pair is zero, and both check
// stations are out.
#[derive(Clone, Copy)]
pub struct Impulse<B> {
    size: Size,
    a: u8,
    b: u8,
    block: B,
}

impl<B: BlockKind> Impulse<B> {
    pub fn new(size: Size, a: u8, b: u8, block: B) -> Self
        ensures { impulse B.group result.size.number result.a result.b result.block ≡ impulse B.group size.number a b block }
    {
        Impulse { size, a, b, block }
    }

    // The block of a pair.
    fn at(&self, larger: u8, smaller: u8) -> B
        ensures { result ≡ (impulse B.group self.now.size.number self.now.a self.now.b self.now.block).block larger smaller }
    {
        if larger == self.a.max(self.b) && smaller == self.a.min(self.b) {
            self.block
        } else {
            B::zero()
        }
    }
}

impl<B: BlockKind> ReadStore for Impulse<B> {
    type Block = B;

    ghost means = { λ s. impulse B.group s.size.number s.a s.b s.block };

    fn size(&self) -> Size {
        self.size
    }

    fn is_in(&self, s: u8) -> Result<bool, Fault> {
        self.size.admit(s)?;
        Ok(s + 2 < self.size.number())
    }

    fn get(&self, a: u8, b: u8, into: &mut B) -> Result<(), Fault> {
        self.admit_pair(a, b)?;
        *into = self.at(a.max(b), a.min(b));
        Ok(())
    }
}

// The checks before a pattern. The stations are two numbers, here and below, since a refusal names the first that is none.
fn may_lay(size: Size, work: usize, into: usize, a: u8, b: u8) -> Result<(), Fault>
    ensures { result ≡ pattern_answer size.number work into a b }
{
    admit_area(size, work)?;
    if into < size.pairs() {
        return Err(Fault::AreaTooShort(into));
    }
    admit_data(size, a, b)
}

// The bits of the check pairs, from the rows of the check stations, and 0 at the data pairs, in place order.
fn lay_bits(rows: &RowPair<'_, bool>, into: &mut [bool])
    requires long { pair_count rows.now.size.number ≤ length into.old }
    ensures laid { (x y : ℕ) → x < rows.now.size.number → y ≤ x → slice_index_or into.new (pair_place x y) false ≡ row_bit rows.now.size.number rows.now.two rows.now.first.now rows.now.second.now x y }
    ensures later { (p : ℕ) → pair_count rows.now.size.number ≤ p → slice_index_or into.new p false ≡ slice_index_or into.old p false }
{
    let bits = &mut into[..rows.size.pairs()];
    for (p, bit) in bits.iter_mut().enumerate() {
        if let Some(pair) = pair_at(p) {
            *bit = rows.bit(pair);
        }
    }
}

// Lays the pattern of a data pair.
fn lay_pattern(size: Size, a: u8, b: u8, work: &mut [bool], into: &mut [bool])
    requires work { 8 * size.number ≤ length work.old }
    requires long { pair_count size.number ≤ length into.old }
    requires inner { max a b + 2 < size.number }
    ensures { Pattern size.number a b into.old into.new }
{
    let n = size.number();
    let store = Impulse::new(size, a, b, true);
    let two = Pair {
        larger: n - 1,
        smaller: n - 2,
    };
    rebuild(&store, two, work);
    lay_bits(&RowPair::new(size, two, work), into);
}

// The pattern of the data pair of two stations, in the first bits of `into`, one for each pair in place order.
// Refused by 3 b if the work area is under 8 n bits, or then `into` under one bit for each pair, by 4 s, and by 5 b if
// the pair is a check pair; a refusal changes neither area.
pub fn pattern(size: Size, a: u8, b: u8, work: &mut [bool], into: &mut [bool]) -> Result<(), Fault>
    ensures answer { result ≡ pattern_answer size.number (length work.old) (length into.old) a b }
    ensures bits { is_ok result ≡ true → Pattern size.number a b into.old into.new }
    ensures into { is_ok result ≡ false → into.new ≡ into.old }
    ensures work { is_ok result ≡ false → work.new ≡ work.old }
{
    may_lay(size, work.len(), into.len(), a, b)?;
    lay_pattern(size, a, b, work, into);
    Ok(())
}
