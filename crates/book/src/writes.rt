// Writes: a data pair takes a new block, and the check pairs of its pattern follow.
ghost use Rattle.std.specs.Prelude.{◌≡◌, ◌+◌, ◌*◌, ◌<◌, ◌≤◌, max, false, length, is_ok, Option};
ghost use Rattle.book.specs.Books.{state_of};
ghost use Rattle.recovery.specs.Patterns.{spot};
ghost use Rattle.recovery.specs.Recovery.{RecoveredFrom};
ghost use Rattle.state.specs.Additions.{row_part, Added, Spread};
ghost use Rattle.state.specs.Calls.{write_answer, Wrote};
ghost use Rattle.state.specs.States.{seen, state};
ghost use Rattle.state.specs.declared.records.Filling.{Filling};
ghost use Rattle.store.specs.Meaning.{After};

use crate::books::Book;
use faults::Fault;
use kinds::BlockKind;
use recovery::{Impulse, rebuild_two};
use store::{ReadStore, WriteStore};

// Adds a block to the pair of a and b if both stations are in.
fn add_to<S: WriteStore>(store: &mut S, a: u8, b: u8, d: S::Block)
    requires first { a < (S.means store.old).size }
    requires second { b < (S.means store.old).size }
    ensures { Added S.Block.group (S.means store.old) (spot S.Block.group.none d a b) (S.means store.new) }
{
    let mut block = S::Block::zero();
    if store.get(a, b, &mut block).is_ok() {
        // Accepted, as the pair was handed out.
        let _ = store.put(a, b, block.add(d));
    }
}

// Adds a row to the pairs of c with the stations up to c.
fn add_row<S: WriteStore>(store: &mut S, c: u8, row: &[S::Block])
    requires below { c < (S.means store.old).size }
    requires small { (S.means store.old).size ≤ 31 }
    requires long { (S.means store.old).size ≤ length row.now }
    ensures { Added S.Block.group (S.means store.old) (row_part S.Block.group c (c + 1) row.now) (S.means store.new) }
{
    for (k, x) in (0..=c).zip(row) {
        add_to(store, c, k, *x);
    }
}

// Adds d to a data pair and to the check pairs of its pattern: the codeword with d there and zero at the other data pairs.
fn spread<S: WriteStore>(store: &mut S, a: u8, b: u8, d: S::Block, work: &mut [S::Block])
    requires inner { max a b + 2 < (S.means store.old).size }
    requires long { 8 * (S.means store.old).size ≤ length work.old }
    ensures { Spread S.Block.group (S.means store.old) a b d (S.means store.new) }
{
    let size = store.size();
    let n = size.number();
    let pulse = Impulse::new(size, a, b, d);
    // Its two check stations are out, so their rows are laid.
    let Ok(Some(checks)) = rebuild_two(&pulse, work) else {
        unreachable()
    };
    let (smaller, larger) = work.split_at(usize::from(n));
    add_row(store, checks.smaller, smaller);
    add_row(store, checks.larger, larger);
    add_to(store, a, b, d);
}

// Puts x in place of the old block of a data pair: adds what the two differ by.
fn write_pair<S: WriteStore>(
    store: &mut S,
    a: u8,
    b: u8,
    old: S::Block,
    x: S::Block,
    work: &mut [S::Block],
)
    requires inner { max a b + 2 < (S.means store.old).size }
    requires long { 8 * (S.means store.old).size ≤ length work.old }
    ensures { (f : Option Filling) → RecoveredFrom S.Block.group (seen (state (S.means store.old) f)) a b old → Wrote S.Block.group (state (S.means store.old) f) a b x (state (S.means store.new) f) }
{
    spread(store, a, b, x.add(old), work);
}

impl<S: WriteStore> Book<S> {
    // Writes a data pair: recovers its old block, and puts the new one in its place. Refused by 3 b, 4 s, 5 b and 9 b; a
    // refusal changes nothing.
    pub fn write(&mut self, a: u8, b: u8, x: S::Block, work: &mut [S::Block]) -> Result<(), Fault>
        ensures answer { result ≡ write_answer (state_of S.means self.old) (length work.old) a b }
        ensures after { After result (Wrote S.Block.group (state_of S.means self.old) a b x (state_of S.means self.new)) (state_of S.means self.new ≡ state_of S.means self.old) }
        ensures same { is_ok result ≡ false → self.new ≡ self.old }
        ensures work { is_ok result ≡ false → work.new ≡ work.old }
    {
        self.may_write(work.len(), a, b)?;
        let mut old = S::Block::zero();
        self.recover(a, b, work, &mut old)?;
        write_pair(&mut self.store, a, b, old, x, work);
        Ok(())
    }
}
