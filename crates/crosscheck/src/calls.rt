// Lists of calls on books over a table and over an image: each answer, and what the store holds in the end.
use crate::areas::Area;
use crate::counts::Counts;
use crate::elimination::{Solution, place_of};
use crate::model::Model;
use crate::scripts::{Bench, Outcome, Script};
use crate::stops::{Stop, differs};
use kinds::Block;
use serve::Rack;
use std::alloc::Global;

// A list of calls that was made on the model and on a book over a new store.
#[derive(Drop)]
struct Made<A> {
    number: usize,
    model: Model,
    script: Script,
    area: A,
    outcome: Outcome,
}

impl<A: Area + Drop> Made<A> {
    fn make(bench: &mut Bench, n: u8, number: usize, rack: &mut Rack) -> Result<Self, Stop> {
        let heap = bench.heap;
        let mut model = Model::new(heap, n)?;
        let mut script = bench.write_script(&mut model)?;
        let mut area = A::new(heap, n)?;
        let outcome = area.serve(n, &mut script, rack)?;
        Ok(Made {
            number,
            model,
            script,
            area,
            outcome,
        })
    }

    fn differs(&self, what: &'static str, at: usize) -> Stop {
        differs(what, self.model.n(), self.number, at)
    }

    // The opens, the answers, the audit and the marks.
    fn compare_answers(&self) -> Result<(), Stop> {
        if self.outcome.opened != Ok(()) {
            return Err(self.differs("first open", 0));
        }
        if let Some(turn) = self.script.first_other() {
            return Err(self.differs("answer", turn));
        }
        if self.outcome.reopened != self.script.open {
            return Err(self.differs("second open", 0));
        }
        if self.outcome.audit != self.model.audit() {
            return Err(self.differs("audit", 0));
        }
        if !self.area.has_marks(&self.model) {
            return Err(self.differs("marks", 0));
        }
        Ok(())
    }

    // The block that a pair must hold: between standing stations what the last writes ask for.
    fn wanted_block(&self, a: u8, b: u8, codeword: &[Block]) -> Option<Block> {
        if self.model.is_out(a) || self.model.is_out(b) {
            return self.area.lost_block();
        }
        if self.model.is_absent(a) || self.model.is_absent(b) {
            return None;
        }
        codeword.get(place_of(a, b)).copied()
    }

    // What the store holds. Answers how many blocks were compared.
    fn compare_stored(&self, heap: Global, codeword: &[Block]) -> Result<usize, Stop> {
        let pairs = (0..self.model.n()).flat_map(|a| (0..=a).map(move |b| (a, b)));
        let wanted: Vec<(usize, Block)> = pairs
            .filter_map(|(a, b)| {
                let block = self.wanted_block(a, b, codeword)?;
                Some((place_of(a, b), block))
            })
            .collect(heap)?;
        match wanted.iter().find(|(p, block)| !self.area.holds(*p, block)) {
            Some((p, _)) => Err(self.differs("stored block", *p)),
            None => Ok(wanted.len()),
        }
    }
}

// Makes a list of calls on the model and on a book over a new store, and compares them.
pub fn compare_list<A: Area + Drop>(
    bench: &mut Bench,
    n: u8,
    rack: &mut Rack,
    counts: &mut Counts,
) -> Result<(), Stop> {
    let heap = bench.heap;
    let made = Made::<A>::make(bench, n, counts.lists, rack)?;
    made.compare_answers()?;
    let codeword = Solution::of(heap, n)?.encode(heap, made.model.written())?;
    let stored = made.compare_stored(heap, codeword.as_slice())?;
    counts.count_list(stored, made.script.wanted.as_slice());
    counts.count_outcome(&made.outcome.reopened, &made.outcome.audit);
    Ok(())
}
