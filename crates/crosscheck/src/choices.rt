// Pseudo-random calls, chosen so that stations are often lost and filled again, and every refusal is met.
use crate::model::Model;
use crate::random::Random;
use crate::tickets::Tickets;
use kinds::Block;
use serve::{Call, Sort};

// What a call is chosen by.
#[derive(Drop)]
pub struct Choice<'a> {
    pub model: &'a Model,
    pub tickets: &'a Tickets,
    pub random: &'a mut Random,
}

impl Choice<'_> {
    // A station, now and then one that is not there.
    fn any_station(&mut self) -> u8 {
        let n = self.model.n();
        if self.random.once_in(16) {
            return n.saturating_add(self.random.byte() % 4);
        }
        if self.random.once_in(64) {
            return self.random.byte();
        }
        self.random.byte() % n.max(1)
    }

    // A data station, but sometimes any.
    fn data_station(&mut self) -> u8 {
        if self.random.once_in(8) {
            return self.any_station();
        }
        self.random.byte() % self.model.n().saturating_sub(2).max(1)
    }

    // A work area that suffices, or one that is too short.
    fn any_area(&mut self) -> usize {
        let full = self.model.full_area();
        match self.random.below(24) {
            0 => full.saturating_sub(1),
            1 => self.random.below(full),
            2 => usize::MAX,
            _ => full,
        }
    }

    // The third loss is rare, since no call mends it.
    fn station_to_lose(&mut self) -> u8 {
        let any = self.any_station();
        if self.model.count_absent() < 2 || self.random.once_in(60) {
            return any;
        }
        self.model.first_absent().unwrap_or(any)
    }

    fn station_to_fit(&mut self) -> u8 {
        let any = self.any_station();
        if self.random.once_in(8) {
            return any;
        }
        self.model.out_from(any).unwrap_or(any)
    }

    fn any_sort(&mut self) -> Sort {
        if self.random.once_in(2) {
            Sort::Full
        } else {
            Sort::Open
        }
    }

    // The station being filled, or one with a ticket of this sort, or any.
    fn station_of_ticket(&mut self, sort: Sort) -> u8 {
        let any = self.any_station();
        match self.random.below(8) {
            0 => any,
            1 => self.tickets.of(sort).find_from(any).unwrap_or(any),
            _ => self.model.filled().unwrap_or(any),
        }
    }

    fn write(&mut self) -> Call<Block> {
        Call::Write {
            a: self.data_station(),
            b: self.data_station(),
            block: self.random.block(),
            area: self.any_area(),
        }
    }

    fn read(&mut self) -> Call<Block> {
        Call::Read {
            a: self.data_station(),
            b: self.data_station(),
            area: self.any_area(),
        }
    }

    fn fill(&mut self) -> Call<Block> {
        Call::Fill {
            station: self.station_of_ticket(Sort::Open),
            area: self.any_area(),
        }
    }

    fn abandon(&mut self) -> Call<Block> {
        let sort = self.any_sort();
        Call::Abandon {
            station: self.station_of_ticket(sort),
            sort,
        }
    }

    // Any call; where it is to be calm, no station is lost.
    pub fn call(&mut self, calm: bool) -> Call<Block> {
        match self.random.below(64) {
            0..=3 if !calm => Call::Lose {
                station: self.station_to_lose(),
            },
            4..=7 => Call::Fit {
                station: self.station_to_fit(),
            },
            8 => self.abandon(),
            9..=12 if self.model.is_full() || self.random.once_in(8) => Call::Finish {
                station: self.station_of_ticket(Sort::Full),
            },
            13..=39 if self.model.filled().is_some() || self.random.once_in(8) => self.fill(),
            40..=50 => self.read(),
            _ => self.write(),
        }
    }
}
