// A store seen with more stations out.
ghost use Rattle.store.specs.Standing.{beside};

use crate::stores::ReadStore;
use code::{Marks, Size};
use faults::Fault;

// A store for reading in which the stations of `also` count as out beside those that are.
#[derive(Clone, Copy)]
pub struct Beside<'a, S> {
    pub store: &'a S,
    pub also: Marks,
}

impl<S: ReadStore> ReadStore for Beside<'_, S> {
    type Block = S::Block;

    ghost means = { λ t. beside (S.means t.store.now) t.also.bits };

    fn size(&self) -> Size {
        self.store.size()
    }

    fn is_in(&self, s: u8) -> Result<bool, Fault> {
        Ok(self.store.is_in(s)? && !self.also.has(s))
    }

    fn get(&self, a: u8, b: u8, into: &mut S::Block) -> Result<(), Fault> {
        self.admit_pair(a, b)?;
        self.store.get(a, b, into)
    }
}
