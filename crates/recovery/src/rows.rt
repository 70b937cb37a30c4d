// The rebuilt rows of two stations, read by pair.
ghost use Rattle.std.specs.Prelude.{◌≡◌, ◌*◌, ◌<◌, ◌≤◌, length, take, drop};
ghost use Rattle.recovery.specs.Recovery.{row_block, row_bit};

use code::{Pair, Size};
use kinds::BlockKind;

// The rows of two stations, the smaller first; the second may be longer than a row.
#[derive(Drop)]
pub(crate) struct RowPair<'a, B> {
    pub(crate) size: Size,
    two: Pair,
    first: &'a [B],
    second: &'a [B],
    ghost first_long: { size.number ≤ length first.now },
    ghost second_long: { size.number ≤ length second.now },
}

impl<'a, B: BlockKind> RowPair<'a, B> {
    // The rows at the front of an area.
    pub(crate) fn new(size: Size, two: Pair, area: &'a [B]) -> Self
        requires { 2 * size.number ≤ length area.now }
        ensures size { result.size ≡ size }
        ensures two { result.two ≡ two }
        ensures first { result.first.now ≡ take size.number area.now }
        ensures second { result.second.now ≡ drop size.number area.now }
    {
        let (first, second) = area.split_at(usize::from(size.number()));
        RowPair {
            size,
            two,
            first,
            second,
        }
    }

    // The block of a pair with one of the two stations.
    pub(crate) fn block(&self, a: u8, b: u8) -> B
        requires first { a < self.now.size.number }
        requires second { b < self.now.size.number }
        ensures { result ≡ row_block B.group.none self.now.two self.now.first.now self.now.second.now a b }
    {
        let Pair { larger, smaller } = self.two;
        if a == smaller {
            self.first[usize::from(b)]
        } else if a == larger {
            self.second[usize::from(b)]
        } else if b == smaller {
            self.first[usize::from(a)]
        } else {
            self.second[usize::from(a)]
        }
    }
}

impl RowPair<'_, bool> {
    // The bit of a pair, where the two are the check stations: 0 for a data pair.
    pub(crate) fn bit(&self, pair: Pair) -> bool
        requires first { pair.larger < self.now.size.number }
        requires second { pair.smaller < self.now.size.number }
        ensures { result ≡ row_bit self.now.size.number self.now.two self.now.first.now self.now.second.now pair.larger pair.smaller }
    {
        pair.larger + 2 >= self.size.number() && self.block(pair.larger, pair.smaller)
    }
}
