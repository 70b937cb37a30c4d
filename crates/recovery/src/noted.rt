// A store of which the absent stations were asked once.
ghost use Rattle.std.specs.Prelude.{◌≡◌};
ghost use Rattle.recovery.specs.Recovery.{AbsentMarks};
ghost use Rattle.store.specs.Standing.{beside};

use crate::absent::absent_marks;
use code::{Marks, Size};
use faults::Fault;
use store::{Beside, ReadStore};

// A store with the stations of `also` out beside those that are, as `Beside` is, with its size and the marks of them all: the
// store is asked for these once, and not for each pair.
#[derive(Drop)]
pub(crate) struct Noted<'a, S: ReadStore> {
    store: &'a S,
    also: Marks,
    size: Size,
    absent: Marks,
    ghost same: { size.number ≡ (S.means store.now).size },
    ghost marks: { AbsentMarks (beside (S.means store.now) also.bits) absent.bits },
}

impl<'a, S: ReadStore> Noted<'a, S> {
    pub(crate) fn of(store: &'a S, also: Marks) -> Self
        ensures store { result.store.now ≡ store.now }
        ensures also { result.also ≡ also }
    {
        Noted {
            store,
            also,
            size: store.size(),
            absent: absent_marks(&Beside { store, also }),
        }
    }
}

impl<S: ReadStore> ReadStore for Noted<'_, S> {
    type Block = S::Block;

    ghost means = { λ t. beside (S.means t.store.now) t.also.bits };

    fn size(&self) -> Size {
        self.size
    }

    fn is_in(&self, s: u8) -> Result<bool, Fault> {
        self.size.admit(s)?;
        Ok(!self.absent.has(s))
    }

    fn is_out(&self, s: u8) -> bool {
        self.absent.has(s)
    }

    fn get(&self, a: u8, b: u8, into: &mut S::Block) -> Result<(), Fault> {
        // Of two stations that stand the store's own answer is the same.
        if self.absent.has(a) || self.absent.has(b) {
            self.admit_pair(a, b)?;
        }
        self.store.get(a, b, into)
    }
}
