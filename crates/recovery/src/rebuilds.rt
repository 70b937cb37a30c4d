// Two absent stations rebuilt in one pass: the rows of both, in a work area.
ghost use Rattle.std.specs.Prelude.{◌≡◌, ℕ, ◌*◌, ◌<◌, ◌≤◌, length, take, drop, slice_index_or};
ghost use Rattle.recovery.specs.Recovery.{Two, Rows, RebuiltTwo};
ghost use Rattle.store.specs.Standing.{beside};

use crate::absent::two_absent;
use crate::areas::admit_area;
use crate::noted::Noted;
use crate::sums::{diagonal_sum, neighbourhood_sum};
use crate::walks::Walk;
use code::{Marks, Pair};
use faults::Fault;
use kinds::BlockKind;
use store::ReadStore;

// Fills a row by a function of the place.
fn lay_row<B: Copy, F: Fn(usize) -> B>(row: &mut [B], f: F)
    requires { (k : ℕ) → k < length row.old → F.pre f k }
    ensures { (k : ℕ) (d : B) → k < length row.old → F.post f k (slice_index_or row.new k d) }
{
    for (k, x) in row.iter_mut().enumerate() {
        *x = f(k);
    }
}

// The rows of two absent stations, each in a row of its own, over rows of neighbourhood sums, of diagonal sums, and of
// what the walk gathers. The rows are parameters with their lengths: a struct that lends five rows to be written would have
// to say at each step that it still lends the same ones.
fn rebuild_rows<S: ReadStore>(
    store: &S,
    pair: Pair,
    first: &mut [S::Block],
    second: &mut [S::Block],
    near: &mut [S::Block],
    across: &mut [S::Block],
    drift: &mut [S::Block],
)
    requires two { Two (S.means store.now) pair }
    requires first { length first.old ≡ (S.means store.now).size }
    requires second { length second.old ≡ (S.means store.now).size }
    requires near { length near.old ≡ (S.means store.now).size }
    requires across { length across.old ≡ (S.means store.now).size }
    requires drift { length drift.old ≡ (S.means store.now).size }
    ensures { Rows S.Block.group (S.means store.now) pair first.new second.new }
{
    let size = store.size();
    let n = size.number();
    let walk = Walk::new(size, pair);
    lay_row(near, |h| neighbourhood_sum(store, h as u8));
    lay_row(
        across,
        |k| diagonal_sum(store, (pair.smaller + k as u8) % n),
    );
    walk.lay_drift(near, across, drift);
    let third = across[usize::from(pair.larger)].add(walk.drift_sum(drift));
    lay_row(first, |k| third.add(drift[k]));
    lay_row(second, |k| near[k].add(first[k]));
    walk.close(across, first, second);
}

// The rows of two absent stations.
pub(crate) fn rebuild<S: ReadStore>(store: &S, pair: Pair, work: &mut [S::Block])
    requires two { Two (S.means store.now) pair }
    requires long { 8 * (S.means store.now).size ≤ length work.old }
    ensures { Rows S.Block.group (S.means store.now) pair (take (S.means store.now).size work.new) (drop (S.means store.now).size work.new) }
{
    let n = usize::from(store.size().number());
    let (first, rest) = work.split_at_mut(n);
    let (second, rest) = rest.split_at_mut(n);
    let (near, rest) = rest.split_at_mut(n);
    let (across, rest) = rest.split_at_mut(n);
    let (drift, _) = rest.split_at_mut(n);
    rebuild_rows(store, pair, first, second, near, across, drift);
}

// If just two stations are absent, out or of `also`, the pair of them, and their rows at the start of the work area, the
// smaller first. Refused by 3 b if the area is under 8 n blocks. Where it is refused or gives none, the area is as it was.
pub fn rebuild_two_beside<S: ReadStore>(
    store: &S,
    also: Marks,
    work: &mut [S::Block],
) -> Result<Option<Pair>, Fault>
    ensures { RebuiltTwo S.Block.group (beside (S.means store.now) also.bits) work.old result work.new }
{
    admit_area(store.size(), work.len())?;
    let noted = Noted::of(store, also);
    let two = two_absent(&noted);
    if let Some(pair) = two {
        rebuild(&noted, pair, work);
    }
    Ok(two)
}

// The same with no other station absent than those that are out.
pub fn rebuild_two<S: ReadStore>(store: &S, work: &mut [S::Block]) -> Result<Option<Pair>, Fault>
    ensures { RebuiltTwo S.Block.group (S.means store.now) work.old result work.new }
{
    rebuild_two_beside(store, Marks::none(), work)
}
