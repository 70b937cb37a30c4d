// A book told by its accepted calls alone: how each station stands, and the last write to each data pair.
ghost use Rattle.std.specs.Prelude.{◌<◌, vec_len};

use crate::elimination::{count_pairs, place_of};
use crate::tickets::{Held, Tickets};
use audit::Verdict;
use faults::Fault;
use kinds::Block;
use serve::{Answer, Call, Sort};
use std::alloc::{AllocError, Global};

#[derive(Clone, Copy, PartialEq, Eq)]
pub enum Standing {
    Stands,
    Out,
    // being filled, with its next partner
    Filled { next: u8 },
}

#[derive(Drop)]
pub struct Model {
    stations: Vec<Standing>,
    written: Vec<Block>,
    ghost few: { vec_len stations < 256 },
}

impl Model {
    // A book that was just opened.
    pub fn new(heap: Global, n: u8) -> Result<Self, AllocError> {
        let zero = Block::from([0; 64]);
        let stations = vec![in heap; Standing::Stands; usize::from(n)]?;
        let written = vec![in heap; zero; count_pairs(n.saturating_sub(2))]?;
        Ok(Model { stations, written })
    }

    // How many stations there are.
    pub fn n(&self) -> u8 {
        self.stations.len() as u8
    }

    pub fn written(&self) -> &[Block] {
        self.written.as_slice()
    }

    // How many blocks a work area must have.
    pub fn full_area(&self) -> usize {
        8 * self.stations.len()
    }

    pub fn standing(&self, s: u8) -> Standing {
        self.stations
            .get(usize::from(s))
            .copied()
            .unwrap_or(Standing::Stands)
    }

    fn set(&mut self, s: u8, to: Standing) {
        if let Some(standing) = self.stations.get_mut(usize::from(s)) {
            *standing = to;
        }
    }

    pub fn is_out(&self, s: u8) -> bool {
        self.standing(s) == Standing::Out
    }

    pub fn is_absent(&self, s: u8) -> bool {
        self.standing(s) != Standing::Stands
    }

    pub fn count_absent(&self) -> u8 {
        self.stations
            .iter()
            .filter(|s| **s != Standing::Stands)
            .count() as u8
    }

    // The station that is being filled. Here and below over station numbers: a place in `stations` would have to be made one.
    pub fn filled(&self) -> Option<u8> {
        (0..self.n()).find(|s| matches!(self.standing(*s), Standing::Filled { .. }))
    }

    // How a station stands that has no partner left.
    fn full(&self) -> Standing {
        Standing::Filled { next: self.n() }
    }

    // Whether a station is being filled and has no partner left.
    pub fn is_full(&self) -> bool {
        self.filled()
            .is_some_and(|s| self.standing(s) == self.full())
    }

    // A station that is out, the next from s on.
    pub fn out_from(&self, s: u8) -> Option<u8> {
        (s..self.n()).find(|k| self.is_out(*k))
    }

    // The smallest absent station.
    pub fn first_absent(&self) -> Option<u8> {
        (0..self.n()).find(|s| self.is_absent(*s))
    }

    // What an open is answered.
    pub fn open(&self) -> Result<(), Fault> {
        match self.out_from(0) {
            Some(s) => Err(Fault::OutAtOpen(s)),
            None => Ok(()),
        }
    }

    // What an audit is answered.
    pub fn audit(&self) -> Result<Verdict, Fault> {
        match self.first_absent() {
            Some(s) => Err(Fault::AbsentAtAudit(s)),
            None => Ok(Verdict::Sound),
        }
    }

    fn admit(&self, s: u8) -> Result<(), Fault> {
        if s < self.n() {
            Ok(())
        } else {
            Err(Fault::NoSuchStation(s))
        }
    }

    fn admit_area(&self, area: usize) -> Result<(), Fault> {
        if area < self.full_area() {
            Err(Fault::AreaTooShort(area))
        } else {
            Ok(())
        }
    }

    // The place of a data pair.
    fn data_place(&self, a: u8, b: u8, area: usize) -> Result<usize, Fault> {
        self.admit_area(area)?;
        self.admit(a)?;
        self.admit(b)?;
        let larger = a.max(b);
        if larger >= self.n().saturating_sub(2) {
            return Err(Fault::CheckPair(larger));
        }
        Ok(place_of(a, b))
    }

    fn few_absent(&self) -> Result<(), Fault> {
        match self.count_absent() {
            0..=2 => Ok(()),
            count => Err(Fault::TooManyAbsent(count)),
        }
    }

    pub fn write(&mut self, a: u8, b: u8, block: Block, area: usize) -> Result<(), Fault> {
        let p = self.data_place(a, b, area)?;
        self.few_absent()?;
        if let Some(written) = self.written.get_mut(p) {
            *written = block;
        }
        Ok(())
    }

    pub fn read(&self, a: u8, b: u8, area: usize) -> Result<Block, Fault> {
        let p = self.data_place(a, b, area)?;
        if self.is_absent(a) || self.is_absent(b) {
            self.few_absent()?;
        }
        let zero = Block::from([0; 64]);
        Ok(self.written.get(p).copied().unwrap_or(zero))
    }

    pub fn lose(&mut self, s: u8) -> Result<(), Fault> {
        self.admit(s)?;
        if self.is_absent(s) {
            return Err(Fault::AlreadyAbsent(s));
        }
        self.set(s, Standing::Out);
        Ok(())
    }

    pub fn fit(&mut self, s: u8) -> Result<(), Fault> {
        self.admit(s)?;
        if !self.is_out(s) {
            return Err(Fault::NotOut(s));
        }
        if let Some(other) = self.filled() {
            return Err(Fault::FillingUnderWay(other));
        }
        self.few_absent()?;
        self.set(s, Standing::Filled { next: 0 });
        Ok(())
    }

    fn fill(&mut self, s: u8, area: usize) -> Result<(), Fault> {
        self.admit_area(area)?;
        let Standing::Filled { next } = self.standing(s) else {
            return Err(Fault::TicketRefused(s));
        };
        self.few_absent()?;
        let next = next.saturating_add(1).min(self.n());
        self.set(s, Standing::Filled { next });
        Ok(())
    }

    pub fn finish(&mut self, s: u8) -> Result<(), Fault> {
        if self.standing(s) != self.full() {
            return Err(Fault::TicketRefused(s));
        }
        self.set(s, Standing::Stands);
        Ok(())
    }
}

// Calls with tickets, and the order that fits a station, fills it with every partner and finishes it.
impl Model {
    pub fn replace(&mut self, s: u8) -> Result<(), Fault> {
        self.fit(s)?;
        for _ in 0..self.n() {
            self.fill(s, self.full_area())?;
        }
        self.finish(s)
    }

    fn fit_for(&mut self, s: u8, tickets: &mut Tickets) -> Result<Answer<Block>, Fault> {
        self.fit(s)?;
        tickets.open.add(s);
        Ok(Answer::Accepted)
    }

    fn fill_with(
        &mut self,
        s: u8,
        area: usize,
        tickets: &mut Tickets,
    ) -> Result<Answer<Block>, Fault> {
        if !tickets.open.has(s) {
            return Ok(Answer::NotMade);
        }
        self.fill(s, area)?;
        tickets.open.remove(s);
        let sort = if self.is_full() {
            Sort::Full
        } else {
            Sort::Open
        };
        tickets.of_mut(sort).add(s);
        Ok(Answer::Accepted)
    }

    fn finish_with(&mut self, s: u8, tickets: &mut Tickets) -> Result<Answer<Block>, Fault> {
        if !tickets.full.has(s) {
            return Ok(Answer::NotMade);
        }
        self.finish(s)?;
        tickets.full.remove(s);
        Ok(Answer::Accepted)
    }

    fn abandon(&mut self, s: u8, tickets: &mut Held) -> Answer<Block> {
        if !tickets.has(s) {
            return Answer::NotMade;
        }
        tickets.remove(s);
        match self.standing(s) {
            Standing::Filled { .. } => {
                self.set(s, Standing::Out);
                Answer::Accepted
            }
            _ => Answer::Untouched,
        }
    }

    // What a call is answered, where the work area has `longest` blocks.
    fn try_answer(
        &mut self,
        call: Call<Block>,
        longest: usize,
        tickets: &mut Tickets,
    ) -> Result<Answer<Block>, Fault> {
        match call {
            Call::Write { a, b, block, area } => {
                self.write(a, b, block, area.min(longest))?;
                Ok(Answer::Accepted)
            }
            Call::Read { a, b, area } => Ok(Answer::Given(self.read(a, b, area.min(longest))?)),
            Call::Lose { station } => {
                self.lose(station)?;
                Ok(Answer::Accepted)
            }
            Call::Fit { station } => self.fit_for(station, tickets),
            Call::Fill { station, area } => self.fill_with(station, area.min(longest), tickets),
            Call::Finish { station } => self.finish_with(station, tickets),
            Call::Abandon { station, sort } => Ok(self.abandon(station, tickets.of_mut(sort))),
        }
    }

    // The same, with a refusal as an answer.
    pub fn answer(
        &mut self,
        call: Call<Block>,
        longest: usize,
        tickets: &mut Tickets,
    ) -> Answer<Block> {
        self.try_answer(call, longest, tickets)
            .unwrap_or_else(|fault| Answer::Refused(fault))
    }
}
