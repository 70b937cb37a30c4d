// The walk round the stations on which the rows of two absent stations are rebuilt.
// From the third station on, the block of i at each station of the walk differs from the one before by a
// neighbourhood sum and a diagonal sum; what they all come to settles the first of them.
ghost use Rattle.std.specs.Prelude.{◌≡◌, ℕ, ◌+◌, ◌<◌, ◌≤◌, length};
ghost use Rattle.code.specs.Sizes.{OddPrime};
ghost use Rattle.recovery.specs.Work.{station, block_at, gathered, all_gathered, first_closed, second_closed};

use code::{Pair, Size};
use kinds::BlockKind;

// Two of n stations, i before j, and the walk i, j, j + (j - i), .. round them all: as plain numbers, of which places are
// computed at every step.
#[derive(Clone, Copy)]
pub(crate) struct Walk {
    n: usize,
    i: usize,
    j: usize,
    ghost before: { i < j },
    ghost below: { j < n },
    ghost prime: { OddPrime n },
}

impl Walk {
    pub(crate) fn new(size: Size, pair: Pair) -> Self
        requires before { pair.smaller < pair.larger }
        requires below { pair.larger < size.number }
        ensures n { result.n ≡ size.number }
        ensures i { result.i ≡ pair.smaller }
        ensures j { result.j ≡ pair.larger }
    {
        Walk {
            n: usize::from(size.number()),
            i: usize::from(pair.smaller),
            j: usize::from(pair.larger),
        }
    }

    // Where the walk is at time t.
    fn at(self, t: usize) -> usize
        requires { t ≤ self.n }
        ensures at { result ≡ station self.n self.i self.j t }
        ensures below { result < self.n }
    {
        (self.i + t * (self.j - self.i)) % self.n
    }

    // What the walk gathers from the third station on, of the neighbourhood sums and the diagonal sums. It jumps about the
    // rows, so that they are read and written by place.
    pub(crate) fn lay_drift<B: BlockKind>(self, near: &[B], across: &[B], drift: &mut [B])
        requires near { length near.now ≡ self.n }
        requires across { length across.now ≡ self.n }
        requires drift { length drift.old ≡ self.n }
        ensures { (s : ℕ) → s + 2 < self.n → block_at B.group drift.new (station self.n self.i self.j (s + 2)) ≡ gathered B.group self.n self.i self.j near.now across.now s }
    {
        let mut sum = B::zero();
        for t in 2..self.n {
            let here = self.at(t);
            drift[here] = sum;
            sum = sum.add(near[here].add(across[self.at(t + 1)]));
        }
    }

    // What that comes to over the stations but i and j.
    pub(crate) fn drift_sum<B: BlockKind>(self, drift: &[B]) -> B
        requires { length drift.now ≡ self.n }
        ensures { result ≡ all_gathered B.group self.n self.i self.j drift.now }
    {
        let mut sum = B::zero();
        for (k, x) in drift.iter().enumerate() {
            if k != self.j && k != self.i {
                sum = sum.add(*x);
            }
        }
        sum
    }

    // The pairs of i and j in the rows of both: the pair of the two, which is alone on its diagonal, and their loops.
    pub(crate) fn close<B: BlockKind>(self, across: &[B], first: &mut [B], second: &mut [B])
        requires across { length across.now ≡ self.n }
        requires first { length first.old ≡ self.n }
        requires second { length second.old ≡ self.n }
        ensures first { first.new ≡ first_closed B.group self.n self.i self.j across.now first.old second.old }
        ensures second { second.new ≡ second_closed B.group self.n self.i self.j across.now first.old second.old }
    {
        let after = self.at(2);
        let last = self.at(self.n - 1);
        let loop_i = across[self.i].add(second[last]);
        let loop_j = across[after].add(first[after]);
        first[self.j] = across[self.j];
        second[self.i] = across[self.j];
        first[self.i] = loop_i;
        second[self.j] = loop_j;
    }
}
