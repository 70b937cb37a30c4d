// Recovery of a pair's block from the others, over any store for reading.
ghost use Rattle.std.specs.Prelude.{◌≡◌, ◌*◌, ◌<◌, ◌≤◌, true, false, ◌||◌, Ok, length, is_ok};
ghost use Rattle.recovery.specs.Recovery.{area_first, recover_answer, RecoveredFrom};
ghost use Rattle.store.specs.Meaning.{is_out_of, stations_first};
ghost use Rattle.store.specs.Standing.{beside};

use crate::absent::{few_absent, two_absent};
use crate::areas::admit_area;
use crate::noted::Noted;
use crate::rebuilds::rebuild;
use crate::rows::RowPair;
use crate::sums::{diagonal_sum, kept_block};
use code::Marks;
use faults::Fault;
use kinds::BlockKind;
use store::{Beside, ReadStore};

// Whether a station of the pair is absent.
fn is_lost<S: ReadStore>(store: &S, a: u8, b: u8) -> bool
    ensures { result ≡ (is_out_of (S.means store.now) a || is_out_of (S.means store.now) b) }
{
    store.is_out(a) || store.is_out(b)
}

// The checks before a recovery, but for that of the absent stations.
fn may_recover<S: ReadStore>(store: &S, len: usize, a: u8, b: u8) -> Result<(), Fault>
    ensures { result ≡ area_first (S.means store.now).size len (stations_first (S.means store.now).size a b (Ok tt)) }
{
    let size = store.size();
    admit_area(size, len)?;
    size.admit(a)?;
    size.admit(b)
}

// The block of a lost pair: what the rest of its diagonal comes to, or from the rebuilt rows of two stations.
fn recovered_block<S: ReadStore>(store: &S, a: u8, b: u8, work: &mut [S::Block]) -> S::Block
    requires lost { (is_out_of (S.means store.now) a || is_out_of (S.means store.now) b) ≡ true }
    requires first { a < (S.means store.now).size }
    requires second { b < (S.means store.now).size }
    requires long { 8 * (S.means store.now).size ≤ length work.old }
    ensures { RecoveredFrom S.Block.group (S.means store.now) a b result }
{
    let size = store.size();
    let n = size.number();
    match two_absent(store) {
        Some(two) => {
            rebuild(store, two, work);
            RowPair::new(size, two, work).block(a, b)
        }
        None => diagonal_sum(store, (a + b) % n),
    }
}

// Lays the block of a pair in the caller's place, recovered if a station of the pair is absent: out, or one of `also`.
// Refused by 3 b if the work area is under 8 n blocks, by 4 s, and by 9 b if three or more stations are absent and one
// of them is in the pair; a refusal changes nothing.
pub fn recover_beside<S: ReadStore>(
    store: &S,
    also: Marks,
    a: u8,
    b: u8,
    work: &mut [S::Block],
    into: &mut S::Block,
) -> Result<(), Fault>
    ensures answer { result ≡ recover_answer (beside (S.means store.now) also.bits) (length work.old) a b }
    ensures block { is_ok result ≡ true → RecoveredFrom S.Block.group (beside (S.means store.now) also.bits) a b into.new }
    ensures into { is_ok result ≡ false → into.new ≡ into.old }
    ensures work { is_ok result ≡ false → work.new ≡ work.old }
{
    may_recover(store, work.len(), a, b)?;
    let standing = Beside { store, also };
    if !is_lost(&standing, a, b) {
        *into = kept_block(&standing, a, b);
        return Ok(());
    }
    let noted = Noted::of(store, also);
    few_absent(&noted)?;
    *into = recovered_block(&noted, a, b, work);
    Ok(())
}

// The same with no other station absent than those that are out.
pub fn recover<S: ReadStore>(
    store: &S,
    a: u8,
    b: u8,
    work: &mut [S::Block],
    into: &mut S::Block,
) -> Result<(), Fault>
    ensures answer { result ≡ recover_answer (S.means store.now) (length work.old) a b }
    ensures block { is_ok result ≡ true → RecoveredFrom S.Block.group (S.means store.now) a b into.new }
    ensures into { is_ok result ≡ false → into.new ≡ into.old }
    ensures work { is_ok result ≡ false → work.new ≡ work.old }
{
    recover_beside(store, Marks::none(), a, b, work, into)
}
