// Opening a book.
ghost use Rattle.std.specs.Prelude.{◌≡◌, ◌+◌, ◌<◌};
ghost use Rattle.book.specs.Books.{state_of};
ghost use Rattle.state.specs.Calls.{open_answer, Opened};
ghost use Rattle.state.specs.Opens.{RowCleared, RowsCleared};
ghost use Rattle.code.specs.Sizes.{OddPrime};
ghost use Rattle.store.specs.Meaning.{After, AllIn};

use crate::books::Book;
use audit::first_absent;
use faults::Fault;
use kinds::BlockKind;
use store::{ReadStore, WriteStore};

// Puts zero at the pairs of a with stations up to a.
fn clear_row<S: WriteStore>(store: &mut S, a: u8)
    requires all { AllIn (S.means store.old) }
    requires below { a < (S.means store.old).size }
    requires small { a < 31 }
    ensures { RowCleared S.Block.group (S.means store.old) a (a + 1) (S.means store.new) }
{
    for b in 0..=a {
        // No station is out, so this is not refused.
        let _ = store.put(a, b, S::Block::zero());
    }
}

// Puts zero at all pairs.
fn clear<S: WriteStore>(store: &mut S)
    requires { AllIn (S.means store.old) }
    ensures cleared { RowsCleared S.Block.group (S.means store.old) (S.means store.old).size (S.means store.new) }
    ensures prime { OddPrime (S.means store.old).size }
{
    for a in 0..store.size().number() {
        clear_row(store, a);
    }
}

impl<S: WriteStore> Book<S> {
    // Zero blocks everywhere, and no filling. Refused by 2 b, with the smallest station that is out.
    pub fn open(&mut self) -> Result<(), Fault>
        ensures answer { result ≡ open_answer (state_of S.means self.old) }
        ensures after { After result (Opened S.Block.group (state_of S.means self.old) (state_of S.means self.new)) (state_of S.means self.new ≡ state_of S.means self.old) }
    {
        if let Some(s) = first_absent(&self.store) {
            return Err(Fault::OutAtOpen(s));
        }
        clear(&mut self.store);
        self.filling = None;
        Ok(())
    }
}
