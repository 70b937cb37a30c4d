// Lists of calls with the model's answers.
use crate::choices::Choice;
use crate::model::Model;
use crate::random::Random;
use crate::tickets::Tickets;
use audit::Verdict;
use book::Book;
use faults::Fault;
use kinds::Block;
use serve::{Call, Rack, Turn, carry_on, serve};
use std::alloc::{AllocError, Global};
use store::WriteStore;

// A list of calls, the same with the model's answers, what the model answers to an open after them, and a work area. The calls
// are two lists, since one is lent to the book, which writes its answers there.
#[derive(Drop)]
pub struct Script {
    turns: Vec<Turn<Block>>,
    pub wanted: Vec<Turn<Block>>,
    pub open: Result<(), Fault>,
    work: Vec<Block>,
}

// What a book answered to its opens, before the calls and after them, and to an audit.
#[derive(Clone, Copy)]
pub struct Outcome {
    pub opened: Result<(), Fault>,
    pub reopened: Result<(), Fault>,
    pub audit: Result<Verdict, Fault>,
}

impl Script {
    // Makes the calls on a book over a store, in two parts. Opens it again only where that is refused, so that the store
    // stays as it is.
    pub fn serve<S: WriteStore<Block = Block> + Drop>(
        &mut self,
        store: S,
        rack: &mut Rack,
    ) -> Outcome {
        let mut book = Book::make(store);
        let work = self.work.as_mut_slice();
        let half = self.turns.len() / 2;
        let (first, rest) = self.turns.as_mut_slice().split_at_mut(half);
        let opened = serve(&mut book, first, work, rack);
        carry_on(&mut book, rest, work, rack);
        let reopened = if self.open.is_err() {
            book.open()
        } else {
            Ok(())
        };
        Outcome {
            opened,
            reopened,
            audit: book.audit(),
        }
    }

    // The first turn that is not as the model wants it, or that the model has none for.
    pub fn first_other(&self) -> Option<usize> {
        let mut turns = self.turns.iter().enumerate();
        turns.position(|(k, turn)| self.wanted.get(k) != Some(turn))
    }
}

// What goes from one list to the next: tickets stay in the rack.
#[derive(Drop)]
pub struct Bench {
    pub heap: Global,
    random: Random,
    tickets: Tickets,
}

impl Bench {
    pub fn new(heap: Global, start: u64) -> Self {
        Bench {
            heap,
            random: Random::new(start),
            tickets: Tickets::default(),
        }
    }

    // Mostly longer than it must be, now and then too short.
    fn work_area(&mut self, model: &Model) -> Result<Vec<Block>, AllocError> {
        let full = model.full_area();
        let len = if self.random.once_in(16) {
            full.saturating_sub(1)
        } else {
            full.saturating_add(self.random.below(3))
        };
        vec![in self.heap; self.random.block(); len]
    }

    fn choose(&mut self, model: &Model, calm: bool) -> Call<Block> {
        let mut choice = Choice {
            model,
            tickets: &self.tickets,
            random: &mut self.random,
        };
        choice.call(calm)
    }

    // Chooses calls, and makes them on the model. In every other list the second half loses no station, so that all may
    // stand in the end.
    pub fn write_script(&mut self, model: &mut Model) -> Result<Script, AllocError> {
        let work = self.work_area(model)?;
        let length = 300 + 20 * usize::from(model.n());
        let steady = self.random.once_in(2);
        let mut turns = Vec::new(self.heap);
        let mut wanted = Vec::new(self.heap);
        for k in 0..length {
            let call = self.choose(model, steady && k > length / 2);
            let answer = model.answer(call, work.len(), &mut self.tickets);
            wanted.push(Turn { call, answer })?;
            turns.push(Turn::from(call))?;
        }
        Ok(Script {
            turns,
            wanted,
            open: model.open(),
            work,
        })
    }
}
