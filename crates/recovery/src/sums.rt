// Sums of the pairs that have no station out.
ghost use Rattle.std.specs.Prelude.{◌≡◌, ◌<◌};
ghost use Rattle.code.specs.Rules.{of, neighbourhood, diagonal};
ghost use Rattle.store.specs.Standing.{standing};

use kinds::BlockKind;
use store::{ReadStore, block_or_zero};

// The stored block of a pair, or zero where one of its stations is out: what `block_or_zero` says for stations below the
// size, told once for its three callers in the terms of their sums. That the two are stations stands in a clause each, here
// and at `recovered_block` and `RowPair::block`: a type of stations would still owe that its size is the store's.
pub(crate) fn kept_block<S: ReadStore>(store: &S, a: u8, b: u8) -> S::Block
    requires first { a < (S.means store.now).size }
    requires second { b < (S.means store.now).size }
    ensures { result ≡ of (standing S.Block.group (S.means store.now)) a b }
{
    // A pair with a station out is not asked for.
    if store.is_out(a) || store.is_out(b) {
        return S::Block::zero();
    }
    block_or_zero(store, a, b)
}

// What the pairs of h that stand come to, its loop left out.
pub(crate) fn neighbourhood_sum<S: ReadStore>(store: &S, h: u8) -> S::Block
    requires { h < (S.means store.now).size }
    ensures { result ≡ neighbourhood S.Block.group (S.means store.now).size (standing S.Block.group (S.means store.now)) h }
{
    let mut sum = S::Block::zero();
    for k in 0..store.size().number() {
        if k != h {
            sum = sum.add(kept_block(store, h, k));
        }
    }
    sum
}

// What those on diagonal m come to. Each station a has one partner there; the pair is counted at the larger.
pub(crate) fn diagonal_sum<S: ReadStore>(store: &S, m: u8) -> S::Block
    requires { m < (S.means store.now).size }
    ensures { result ≡ diagonal S.Block.group (S.means store.now).size (standing S.Block.group (S.means store.now)) m }
{
    let n = store.size().number();
    let mut sum = S::Block::zero();
    for a in 0..n {
        let b = (m + (n - a)) % n;
        if b <= a {
            sum = sum.add(kept_block(store, a, b));
        }
    }
    sum
}
